// A book whose reading stopped, which answers 10 before anything else, and the report's refusal 56.
use crate::asking::{move_to, report, run_one};
use crate::books::{open_many, opening, transfer};
use book::Book;
use journal::{Journal, Roll};
use meaning::limits::LAST_MOMENT;
use meaning::{Answer, Content, Entry, Order, Record, number_of};
use policy::Open;
use std::test::Fail;

// Its journal has one order, on accounts that it lacks.
fn stopped() -> Result<Book<Roll, Open>, Fail> {
    let fields = Record {
        number: 1,
        linked: false,
        moment: 60,
        content: Content::Transfer {
            debit: 1,
            credit: 2,
            amount: 1,
        },
    };
    let mut roll = Roll::new();
    let entry = Entry::new(fields).ok_or_else(|| Fail::new("not sound"))?;
    roll.append(entry).map_err(|_| Fail::new("full"))?;
    Ok(Book::create(roll, Open))
}

#[test]
fn a_stopped_book(rt: HostRuntime) -> Result<(), Fail> {
    let mut book = stopped()?;
    // alone, and where the call's own first condition holds too
    for number in [1, 0] {
        assert_eq!(rt; number_of(&book.open(&opening(number))), 10);
        assert_eq!(rt;
            number_of(&run_one(&mut book, number, transfer(1, 2, 1))),
            10
        );
    }
    for moment in [60, LAST_MOMENT + 1] {
        assert_eq!(rt; number_of(&move_to(&mut book, moment, 8)), 10);
    }
    assert_eq!(rt; number_of(&report(&book, 512)), 10);
    assert_eq!(rt; number_of(&report(&book, 0)), 10);
    let orders = [Order {
        number: 2,
        linked: false,
        action: transfer(1, 2, 1),
    }];
    let mut answers: [Answer; 0] = [];
    assert_eq!(rt; number_of(&book.run(&orders, &mut answers)), 10);
    assert!(rt; book.account(1).is_none() && book.reservation(1).is_none());
    assert_eq!(rt; book.moment(), 0);
    let stop = book
        .reading()
        .err()
        .ok_or_else(|| Fail::new("read through"))?;
    assert_eq!(rt; stop.place, 0);
    assert_eq!(rt; stop.refusal.number(), 23);
    Ok(())
}

#[test]
fn reports_by_their_buffer(rt: HostRuntime) {
    // accounts, bytes; answer. A line has 16 bytes, and the sum line 14.
    let cases = [
        (0, 0, 0),
        (1, 29, 56),
        (1, 30, 0),
        (2, 45, 56),
        (2, 46, 0),
        (2, 512, 0),
    ];
    for (i, (accounts, bytes, answer)) in cases.into_iter().enumerate() {
        let mut book = Book::create(Roll::new(), Open);
        assert!(rt; open_many(&mut book, accounts).is_ok());
        assert_eq!(rt; number_of(&report(&book, bytes)), answer, "{}", i);
    }
}
