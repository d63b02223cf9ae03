// Books to ask.
use crate::asking::run_one;
use book::Book;
use journal::{Journal, Roll};
use meaning::{Action, Answer, Opening};
use policy::{ByClass, Ceiling, Floor, Open, Policy};

pub const DAM: u64 = 0x4441_4d20_2020_2020;

pub type Mixed = ByClass<Open, ByClass<Floor, Ceiling>>;

// Class 0 is open, class 1 has a floor, and the others a ceiling.
pub fn mixed() -> Mixed {
    ByClass {
        below: Open,
        class: 1,
        from: ByClass {
            below: Floor,
            class: 2,
            from: Ceiling,
        },
    }
}

// An opening that every book takes where its number is free.
pub fn opening(number: u32) -> Opening {
    Opening {
        number,
        ledger: 7,
        class: 0,
        limit: 0,
        label: DAM,
    }
}

// Opens accounts of the numbers from 1 on, up to the first that is refused.
pub fn open_many<J: Journal, P: Policy>(book: &mut Book<J, P>, many: u32) -> Answer {
    for number in 1..=many {
        book.open(&opening(number))?;
    }
    Ok(())
}

// Tests have makers of their own; in `meaning` they would be public calls for tests alone.
pub fn transfer(debit: u32, credit: u32, amount: u64) -> Action {
    Action::Transfer {
        debit,
        credit,
        amount,
    }
}

pub fn reserve(debit: u32, credit: u32, amount: u64, duration: u32) -> Action {
    Action::Reserve {
        debit,
        credit,
        amount,
        duration,
    }
}

// Six accounts; 1 and 4 were debited a litre, 2 and 5 were credited one; the highest number is 10.
pub fn river() -> Book<Roll, Mixed> {
    let mut book = Book::create(Roll::new(), mixed());
    // ledger, class, limit
    let accounts = [
        (7, 0, 0),
        (7, 0, 0),
        (8, 0, 0),
        (7, 1, 100),
        (7, 2, 100),
        (7, 0, 0),
    ];
    for (i, (ledger, class, limit)) in accounts.into_iter().enumerate() {
        let opening = Opening {
            number: i as u32 + 1,
            ledger,
            class,
            limit,
            label: DAM,
        };
        let _ = book.open(&opening);
    }
    let _ = run_one(&mut book, 9, transfer(1, 2, 1));
    let _ = run_one(&mut book, 10, transfer(4, 5, 1));
    book
}
