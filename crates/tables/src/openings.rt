// Opening an account: refusals 41 to 47.
use crate::books::{DAM, open_many, opening};
use crate::picky::Picky;
use book::Book;
use journal::{Roll, Strip};
use meaning::limits::TOP;
use meaning::{Opening, number_of};
use std::process::Abort;

// number, ledger, class, limit, label; answer. Account 1 is open, and classes from 9 on aren't admitted.
type Case = (u32, u16, u8, u64, u64, u8);

const BOUNDARIES: [Case; 20] = [
    (0, 7, 0, 0, DAM, 41),
    (1, 7, 0, 0, DAM, 41),
    (2, 7, 0, 0, DAM, 0),
    (4294967295, 7, 0, 0, DAM, 0),
    (2, 0, 0, 0, DAM, 42),
    (2, 1, 0, 0, DAM, 0),
    (2, 65535, 0, 0, DAM, 0),
    (2, 7, 0, TOP, DAM, 0),
    (2, 7, 0, TOP + 1, DAM, 43),
    (2, 7, 8, 0, DAM, 0),
    (2, 7, 9, 0, DAM, 47),
    // the hyphen, eight characters, no character, a space first, a space within, small letters, zeros as filling
    (2, 7, 0, 0, 0x2d20_2020_2020_2020, 0),
    (2, 7, 0, 0, 0x5245_5345_5256_4539, 0),
    (2, 7, 0, 0, 0, 44),
    (2, 7, 0, 0, 0x2020_2020_2020_2020, 44),
    (2, 7, 0, 0, 0x2044_414d_2020_2020, 44),
    (2, 7, 0, 0, 0x4120_4220_2020_2020, 44),
    (2, 7, 0, 0, 0x6461_6d20_2020_2020, 44),
    (2, 7, 0, 0, 0x4441_4d00_0000_0000, 44),
    (2, 7, 0, 0, 0x5245_5345_5256_4500, 44),
];

const TWO_HOLD: [Case; 4] = [
    (1, 0, 0, 0, DAM, 41),
    (2, 0, 0, TOP + 1, DAM, 42),
    (2, 7, 0, TOP + 1, 0, 43),
    (2, 7, 9, 0, 0, 44),
];

fn check_openings(rt: &impl Abort, cases: &[Case]) {
    for (i, case) in cases.iter().enumerate() {
        let (number, ledger, class, limit, label, answer) = *case;
        let mut book = Book::create(Roll::new(), Picky { class: 9 });
        assert!(rt; open_many(&mut book, 1).is_ok());
        let opening = Opening {
            number,
            ledger,
            class,
            limit,
            label,
        };
        assert_eq!(rt; number_of(&book.open(&opening)), answer, "{}", i);
        assert_eq!(rt;
            book.account(2).is_some(),
            answer == 0 && number == 2,
            "{}",
            i
        );
    }
}

#[test]
fn openings_at_their_boundaries(rt: HostRuntime) {
    check_openings(&rt, &BOUNDARIES);
}

#[test]
fn the_first_refusal_of_an_opening(rt: HostRuntime) {
    check_openings(&rt, &TWO_HOLD);
}

#[test]
fn openings_by_the_room(rt: HostRuntime) {
    // bytes of the strip, accounts opened before; class, label; answer
    let cases = [
        (0, 0, 0, DAM, 46),
        (48, 0, 0, DAM, 46),
        (49, 0, 0, DAM, 0),
        (49, 1, 0, DAM, 46),
        (3200, 63, 0, DAM, 0),
        (3200, 64, 0, DAM, 45),
        // two conditions hold
        (3200, 64, 0, 0, 44),
        (3073, 64, 0, DAM, 45),
        (49, 1, 9, DAM, 46),
    ];
    for (i, (bytes, opened, class, label, answer)) in cases.into_iter().enumerate() {
        let mut memory = [0; 3200];
        let strip = Strip::make(&mut memory[0..bytes.min(3200)], 0);
        let mut book = Book::create(strip, Picky { class: 9 });
        assert!(rt; open_many(&mut book, opened).is_ok());
        let opening = Opening {
            class,
            label,
            ..opening(100)
        };
        assert_eq!(rt; number_of(&book.open(&opening)), answer, "{}", i);
    }
}
