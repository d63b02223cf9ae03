// The calls of a past and of what follows.
use meaning::{Action, Opening, Order};
use promise::{Ask, Call, Span};

const FARM: u64 = 0x4641_524d_2020_2020;

// Litres that every account may be short of, or may hold.
const LIMIT: u64 = 500;

pub fn orders() -> [Order; 14] {
    [
        order(1, false, transfer(1, 2, 400)),
        order(2, false, reserve(1, 2, 50, 60)),
        order(3, false, reserve(2, 1, 30, 0)),
        // a chain that is taken
        order(4, true, transfer(1, 2, 20)),
        order(5, false, post(2, 45)),
        // a chain that is refused whole, and an order that passes the limit
        order(6, true, transfer(2, 1, 5)),
        order(7, false, Action::Void { reservation: 9 }),
        order(8, false, transfer(1, 2, 600)),
        // one that lapses
        order(9, false, reserve(1, 2, 10, 100)),
        // one that passes the limits, but not where the first account has a floor and the second a ceiling
        order(10, false, transfer(2, 1, 1200)),
        // what follows: two closings too late or twice, one in time, and one more that lapses
        order(11, false, post(9, 10)),
        order(12, false, post(2, 5)),
        order(13, false, Action::Void { reservation: 3 }),
        order(14, false, reserve(2, 1, 7, 50)),
    ]
}

pub fn past() -> [Call; 9] {
    [
        call(0, Ask::Open(opening(1))),
        call(1, Ask::Open(opening(2))),
        call(2, Ask::Open(opening(2))),
        call(3, run(0, 3)),
        call(4, move_to(59)),
        call(5, run(3, 7)),
        call(6, run(7, 10)),
        call(7, move_to(20)),
        call(8, move_to(159)),
    ]
}

pub fn further() -> [Call; 10] {
    [
        call(0, run(10, 14)),
        call(1, move_to(1 << 40)),
        call(2, move_to(209)),
        call(3, Ask::Open(opening(3))),
        call(4, Ask::Account(1)),
        call(5, Ask::Reservation(9)),
        call(6, Ask::Moment),
        call(7, Ask::Reading),
        call(8, Ask::Report(Span { from: 0, to: 10 })),
        call(9, Ask::Report(Span { from: 0, to: 512 })),
    ]
}

fn call(at: usize, ask: Ask) -> Call {
    Call { at, ask }
}

fn run(from: usize, to: usize) -> Ask {
    Ask::Run {
        orders: Span { from, to },
        answers: Span { from, to },
    }
}

fn move_to(moment: u64) -> Ask {
    Ask::Move {
        moment,
        lapses: Span { from: 0, to: 4 },
    }
}

// The class is the number.
fn opening(number: u8) -> Opening {
    Opening {
        number: u32::from(number),
        ledger: 7,
        class: number,
        limit: LIMIT,
        label: FARM,
    }
}

fn order(number: u32, linked: bool, action: Action) -> Order {
    Order {
        number,
        linked,
        action,
    }
}

// Tests have makers of their own; in `meaning` they would be public calls for tests alone.
fn transfer(debit: u32, credit: u32, amount: u64) -> Action {
    Action::Transfer {
        debit,
        credit,
        amount,
    }
}

fn reserve(debit: u32, credit: u32, amount: u64, duration: u32) -> Action {
    Action::Reserve {
        debit,
        credit,
        amount,
        duration,
    }
}

fn post(reservation: u32, amount: u64) -> Action {
    Action::Post {
        reservation,
        amount,
    }
}
