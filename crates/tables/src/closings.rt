// Posts and voids: refusals 21 and 31 to 35, and what is asked after them.
use crate::asking::{move_to, run_one};
use crate::books::{Mixed, reserve, river};
use book::Book;
use journal::Roll;
use meaning::{Action, Fate, number_of};
use std::process::Abort;
use std::test::Fail;

fn post(reservation: u32, amount: u64) -> Action {
    Action::Post {
        reservation,
        amount,
    }
}

fn void(reservation: u32) -> Action {
    Action::Void { reservation }
}

// Reservations of 50 litres each: 11 and 12 are live, 12 until 100; 13 is posted, 14 voided, 15 lapsed.
// The moment is 60, and the highest number is 17.
fn held(rt: &impl Abort) -> Book<Roll, Mixed> {
    let mut book = river();
    for (number, duration) in [(11, 0), (12, 100), (13, 60), (14, 60), (15, 60)] {
        assert!(rt; run_one(&mut book, number, reserve(1, 2, 50, duration)).is_ok());
    }
    assert!(rt; run_one(&mut book, 16, post(13, 50)).is_ok());
    assert!(rt; run_one(&mut book, 17, void(14)).is_ok());
    assert!(rt; move_to(&mut book, 60, 1).is_ok());
    book
}

#[test]
fn posts(rt: HostRuntime) {
    // number, reservation, amount; answer
    let cases = [
        (0, 11, 50, 21),
        (17, 11, 50, 21),
        (18, 11, 50, 0),
        (18, 10, 50, 31),
        (18, 18, 50, 31),
        (18, 13, 50, 32),
        (18, 14, 50, 33),
        (18, 15, 50, 34),
        (18, 11, 0, 35),
        (18, 11, 1, 0),
        (18, 11, 51, 35),
        // two conditions hold
        (17, 10, 50, 21),
        (18, 10, 0, 31),
        (18, 13, 0, 32),
        (18, 14, 0, 33),
        (18, 15, 51, 34),
    ];
    for (i, (number, reservation, amount, answer)) in cases.into_iter().enumerate() {
        let mut book = held(&rt);
        let got = run_one(&mut book, number, post(reservation, amount));
        assert_eq!(rt; number_of(&got), answer, "{}", i);
    }
}

#[test]
fn voids(rt: HostRuntime) {
    // number, reservation; answer
    let cases = [
        (0, 11, 21),
        (17, 11, 21),
        (18, 11, 0),
        (18, 10, 31),
        (18, 13, 32),
        (18, 14, 33),
        (18, 15, 34),
        // two conditions hold
        (17, 10, 21),
        (17, 13, 21),
    ];
    for (i, (number, reservation, answer)) in cases.into_iter().enumerate() {
        let mut book = held(&rt);
        let got = run_one(&mut book, number, void(reservation));
        assert_eq!(rt; number_of(&got), answer, "{}", i);
    }
}

#[test]
fn posts_by_the_moment(rt: HostRuntime) {
    for (moment, answer) in [(60, 0), (99, 0), (100, 34), (101, 34)] {
        let mut book = held(&rt);
        assert!(rt; move_to(&mut book, moment, 1).is_ok());
        assert_eq!(rt;
            number_of(&run_one(&mut book, 18, post(12, 50))),
            answer,
            "{}",
            moment
        );
    }
}

#[test]
fn what_is_asked(rt: HostRuntime) -> Result<(), Fail> {
    let book = held(&rt);
    // reservation; deadline, fate
    for (number, deadline, fate) in [
        (11, 0, Fate::Live),
        (12, 100, Fate::Live),
        (13, 60, Fate::Posted),
        (14, 60, Fate::Voided),
        (15, 60, Fate::Lapsed),
    ] {
        let held = book.reservation(number).ok_or_else(|| Fail::new(number))?;
        assert_eq!(rt; held.amount, 50, "{}", number);
        assert_eq!(rt; held.deadline, deadline, "{}", number);
        assert_eq!(rt; held.fate, fate, "{}", number);
    }
    // account; its four totals
    for (number, dp, dq, cp, cq) in [(1, 100, 51, 0, 0), (2, 0, 0, 100, 51), (6, 0, 0, 0, 0)] {
        let account = book.account(number).ok_or_else(|| Fail::new(number))?;
        assert_eq!(rt; account.totals.debits.pending, dp, "{}", number);
        assert_eq!(rt; account.totals.debits.posted, dq, "{}", number);
        assert_eq!(rt; account.totals.credits.pending, cp, "{}", number);
        assert_eq!(rt; account.totals.credits.posted, cq, "{}", number);
    }
    assert!(rt; book.account(7).is_none() && book.reservation(16).is_none());
    Ok(())
}
