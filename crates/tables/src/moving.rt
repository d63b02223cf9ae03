// Moves: refusals 51 to 53, and what lapses.
use crate::asking::{move_to, run_one};
use crate::books::{open_many, reserve};
use book::Book;
use journal::Roll;
use meaning::limits::LAST_MOMENT;
use meaning::number_of;
use policy::Open;
use std::process::Abort;
use std::test::Fail;

// At 1000, with five live reservations: 4 until 1060, 5 until 1030, 6 without a deadline, 7 until 1060, 8 until 2000.
fn waiting(rt: &impl Abort) -> Book<Roll, Open> {
    let mut book = Book::create(Roll::new(), Open);
    assert!(rt; open_many(&mut book, 2).is_ok());
    assert!(rt; move_to(&mut book, 1000, 0).is_ok());
    for (number, duration) in [(4, 60), (5, 30), (6, 0), (7, 60), (8, 1000)] {
        assert!(rt; run_one(&mut book, number, reserve(1, 2, 1, duration)).is_ok());
    }
    book
}

#[test]
fn moves_by_moment_and_list(rt: HostRuntime) {
    // moment, places; answer
    let cases = [
        (0, 8, 52),
        (999, 8, 52),
        (1000, 0, 0),
        (1029, 0, 0),
        (1030, 0, 53),
        (1030, 1, 0),
        (1059, 1, 0),
        (1060, 2, 53),
        (1060, 3, 0),
        (2000, 3, 53),
        (LAST_MOMENT, 4, 0),
        (LAST_MOMENT + 1, 8, 51),
        // two conditions hold
        (LAST_MOMENT + 1, 0, 51),
    ];
    for (i, (moment, places, answer)) in cases.into_iter().enumerate() {
        let mut book = waiting(&rt);
        assert_eq!(rt;
            number_of(&move_to(&mut book, moment, places)),
            answer,
            "{}",
            i
        );
        assert_eq!(rt;
            book.moment(),
            if answer == 0 { moment } else { 1000 },
            "{}",
            i
        );
    }
}

#[test]
fn what_lapses(rt: HostRuntime) -> Result<(), Fail> {
    // moment; how many lapse, the next deadline, the list of five places
    let cases = [
        (1029, 0, 1030, [0, 0, 0, 0, 0]),
        (1030, 1, 1060, [5, 0, 0, 0, 0]),
        (1060, 3, 2000, [5, 4, 7, 0, 0]),
        (2000, 4, 0, [5, 4, 7, 8, 0]),
    ];
    for (moment, lapsed, next, expected) in cases {
        let mut book = waiting(&rt);
        let mut lapses = [0; 5];
        let moved = book
            .move_to(moment, &mut lapses)
            .map_err(|_| Fail::new("refused"))?;
        assert_eq!(rt; moved.lapsed, lapsed, "{}", moment);
        assert_eq!(rt; moved.next_deadline, next, "{}", moment);
        assert_eq!(rt; lapses, expected, "{}", moment);
    }
    Ok(())
}

#[test]
fn as_many_lapses_as_a_list_takes(rt: HostRuntime) {
    // eight are due at 60; places; answer
    for (places, answer) in [(7, 53), (8, 0)] {
        let mut book = Book::create(Roll::new(), Open);
        assert!(rt; open_many(&mut book, 2).is_ok());
        for number in 1..=8 {
            assert!(rt; run_one(&mut book, number, reserve(1, 2, 1, 60)).is_ok());
        }
        assert_eq!(rt;
            number_of(&move_to(&mut book, 60, places)),
            answer,
            "{}",
            places
        );
    }
}
