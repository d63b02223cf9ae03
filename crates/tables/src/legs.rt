// Transfers and reserves: refusals 21 to 30.
use crate::asking::run_one;
use crate::books::{mixed, open_many, opening, reserve, river, transfer};
use book::Book;
use journal::Strip;
use meaning::limits::TOP;
use meaning::{Action, Opening, number_of};
use std::process::Abort;

// number, debit, credit, amount; answer
type Case = (u32, u32, u32, u64, u8);

const BOUNDARIES: [Case; 20] = [
    (0, 1, 2, 5, 21),
    (10, 1, 2, 5, 21),
    (11, 1, 2, 5, 0),
    (4294967295, 1, 2, 5, 0),
    (11, 1, 2, 0, 22),
    (11, 1, 2, 1, 0),
    (11, 6, 1, TOP, 0),
    (11, 6, 1, TOP + 1, 22),
    (11, 9, 2, 5, 23),
    (11, 1, 9, 5, 24),
    (11, 1, 1, 5, 25),
    (11, 1, 3, 5, 26),
    (11, 1, 6, TOP - 1, 0),
    (11, 1, 6, TOP, 27),
    (11, 6, 2, TOP - 1, 0),
    (11, 6, 2, TOP, 27),
    (11, 4, 1, 99, 0),
    (11, 4, 1, 100, 28),
    (11, 1, 5, 99, 0),
    (11, 1, 5, 100, 29),
];

const TWO_HOLD: [Case; 12] = [
    (10, 1, 2, 0, 21),
    (11, 9, 2, 0, 22),
    (11, 9, 8, 5, 23),
    (11, 9, 9, 5, 23),
    (11, 1, 9, TOP, 24),
    (11, 1, 1, TOP, 25),
    (11, 4, 4, 100, 25),
    (11, 1, 3, TOP, 26),
    (11, 4, 3, 100, 26),
    (11, 4, 6, TOP, 27),
    (11, 6, 5, TOP, 27),
    (11, 4, 5, 100, 28),
];

// A transfer and a reserve with the same fields are answered the same.
fn check_legs(rt: &impl Abort, cases: &[Case]) {
    for (i, case) in cases.iter().enumerate() {
        let (number, debit, credit, amount, answer) = *case;
        let mut book = river();
        let got = run_one(&mut book, number, transfer(debit, credit, amount));
        assert_eq!(rt; number_of(&got), answer, "{}", i);
        let mut book = river();
        let got = run_one(&mut book, number, reserve(debit, credit, amount, 60));
        assert_eq!(rt; number_of(&got), answer, "{}", i);
        assert_eq!(rt; book.reservation(number).is_some(), answer == 0);
    }
}

#[test]
fn legs_at_their_boundaries(rt: HostRuntime) {
    check_legs(&rt, &BOUNDARIES);
}

#[test]
fn the_first_refusal_of_a_leg(rt: HostRuntime) {
    check_legs(&rt, &TWO_HOLD);
}

#[test]
fn a_reserve_by_the_room(rt: HostRuntime) {
    let mut memory = [0; 13000];
    let strip = Strip::make(&mut memory, 0);
    let mut book = Book::create(strip, mixed());
    assert!(rt; open_many(&mut book, 2).is_ok());
    let opening = Opening {
        class: 2,
        ..opening(3)
    };
    assert!(rt; book.open(&opening).is_ok());
    for number in 1..=256 {
        assert!(rt; run_one(&mut book, number, reserve(1, 2, 1, 0)).is_ok());
    }
    assert_eq!(rt;
        number_of(&run_one(&mut book, 257, reserve(1, 2, 1, 0))),
        30
    );
    // account 3 takes no water: two conditions hold
    assert_eq!(rt;
        number_of(&run_one(&mut book, 257, reserve(1, 3, 1, 0))),
        29
    );
    assert!(rt; run_one(&mut book, 257, transfer(1, 2, 1)).is_ok());
    // a reservation that has ended keeps its room
    assert!(rt; run_one(&mut book, 258, Action::Void { reservation: 1 }).is_ok());
    assert_eq!(rt;
        number_of(&run_one(&mut book, 259, reserve(1, 2, 1, 0))),
        30
    );
}
