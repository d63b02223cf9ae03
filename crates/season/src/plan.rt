// What the program asks of its books, as values: the same calls are made by hand, and by `history` on two books.
use meaning::{Action, Label, Opening, Order};
use policy::{ByClass, Ceiling, Floor, Open};
use promise::{Ask, Call, Span};

// Waters of one river share a ledger.
const RIVER: u16 = 7;

const DAM: u32 = 1;

const MILL: u32 = 2;

const FARM: u32 = 3;

const TOWN: u32 = 4;

// The dam gives what it has; who draws from it may pass on no more than has come, and a town take in no more than it
// has drawn, but for its limit.
const SOURCE: u8 = 1;

const USER: u8 = 2;

const STORE: u8 = 3;

pub type Rules = ByClass<Open, ByClass<Floor, Ceiling>>;

pub fn policy() -> Rules {
    ByClass {
        below: Open,
        class: USER,
        from: ByClass {
            below: Floor,
            class: STORE,
            from: Ceiling,
        },
    }
}

pub fn orders() -> [Order; 13] {
    [
        // The mill is filled; a reservation is posted in part, and one is voided.
        order(1, transfer(DAM, MILL, 900)),
        order(2, reserve(MILL, FARM, 400, 3600)),
        order(3, post(2, 250)),
        order(4, reserve(MILL, FARM, 100, 0)),
        order(5, Action::Void { reservation: 4 }),
        // A reservation is left too long.
        order(6, reserve(MILL, FARM, 300, 60)),
        order(7, post(6, 300)),
        // The mill tries to pass on more than it has, and a chain with it.
        Order {
            linked: true,
            ..order(8, transfer(DAM, MILL, 50))
        },
        order(9, transfer(MILL, FARM, 701)),
        // After the season: the town takes in as much as its limit, and not a litre more.
        order(10, reserve(DAM, TOWN, 80, 600)),
        order(11, transfer(DAM, TOWN, 21)),
        order(12, transfer(DAM, TOWN, 20)),
        order(13, reserve(MILL, FARM, 40, 900)),
    ]
}

pub fn season() -> [Ask; 15] {
    [
        Ask::Open(opening(DAM, SOURCE, 0, "DAM")),
        Ask::Open(opening(MILL, USER, 0, "MILL")),
        Ask::Open(opening(FARM, USER, 0, "FARM")),
        run(0, 5),
        move_to(1000),
        run(5, 6),
        move_to(1059),
        move_to(1060),
        run(6, 7),
        run(7, 9),
        Ask::Reservation(2),
        Ask::Reservation(4),
        Ask::Reservation(6),
        Ask::Report(Span { from: 0, to: 1024 }),
        Ask::Moment,
    ]
}

pub fn after_the_season() -> [Ask; 12] {
    [
        Ask::Open(opening(TOWN, STORE, 100, "TOWN")),
        Ask::Open(opening(FARM, USER, 0, "FARM")),
        run(9, 13),
        move_to(1659),
        move_to(1660),
        move_to(1000),
        Ask::Account(TOWN),
        Ask::Account(MILL),
        Ask::Reservation(10),
        Ask::Moment,
        Ask::Reading,
        Ask::Report(Span { from: 0, to: 1024 }),
    ]
}

// Calls whose places on the desk are those in the list.
pub fn calls<const N: usize>(asks: [Ask; N]) -> [Call; N] {
    let mut calls = asks.map(|ask| Call { at: 0, ask });
    for (at, call) in calls.iter_mut().enumerate() {
        call.at = at;
    }
    calls
}

// A batch of some of the orders; their answers stand at the same places.
fn run(from: usize, to: usize) -> Ask {
    Ask::Run {
        orders: Span { from, to },
        answers: Span { from, to },
    }
}

fn move_to(moment: u64) -> Ask {
    Ask::Move {
        moment,
        lapses: Span { from: 0, to: 8 },
    }
}

fn opening(number: u32, class: u8, limit: u64, name: &str) -> Opening {
    Opening {
        number,
        ledger: RIVER,
        class,
        limit,
        label: Label::parse(name).map_or(0, |label| label.code),
    }
}

fn order(number: u32, action: Action) -> Order {
    Order {
        number,
        linked: false,
        action,
    }
}

// The program has makers of its own; in `meaning` they would be public calls for printing alone.
fn transfer(debit: u32, credit: u32, amount: u64) -> Action {
    Action::Transfer {
        debit,
        credit,
        amount,
    }
}

fn reserve(debit: u32, credit: u32, amount: u64, duration: u32) -> Action {
    Action::Reserve {
        debit,
        credit,
        amount,
        duration,
    }
}

fn post(reservation: u32, amount: u64) -> Action {
    Action::Post {
        reservation,
        amount,
    }
}
