// Two books: the past on one, and one that takes over from what the same past wrote into another journal.
use crate::plan::{further, orders, past};
use crate::shown::numbers;
use book::Book;
use journal::{Journal, Mirror, Roll, Strip};
use layout::encode;
use meaning::Answer;
use policy::{ByClass, Ceiling, Floor, Open, Policy};
use promise::histories::history;
use promise::runs::run_calls;
use promise::{Desk, Told};
use std::process::Abort;
use std::test::Fail;

type Lists = ([Told; 10], [Answer; 14], [u32; 4], [u8; 512]);

// What the calls on a desk are told, as numbers.
type Numbers = [(u8, u64); 10];

// A strip over this memory takes as many entries as a roll.
const MEMORY: usize = 12289;

fn new_lists() -> Lists {
    ([Told::Nothing; 10], [Ok(()); 14], [0; 4], [b'-'; 512])
}

// The past on a book over an empty journal, and what it wrote there.
fn written<J: Journal + Drop, P: Policy + Drop>(journal: J, policy: P) -> J {
    let (mut told, mut answers, mut lapses, mut bytes) = new_lists();
    let mut desk = Desk::new(&mut told, &mut answers, &mut lapses, &mut bytes);
    let mut book = Book::create(journal, policy);
    run_calls(&mut book, &past(), &orders(), &mut desk);
    let (journal, _) = book.close();
    journal
}

// The entries of two journals, by their bytes.
fn check_entries<J: Journal, K: Journal>(rt: &impl Abort, one: &J, other: &K) -> Result<(), Fail> {
    assert_eq!(rt; one.count(), other.count());
    assert_eq!(rt; one.spare(), other.spare());
    for place in 0..one.count() {
        let entry = one.entry_at(place).ok_or_else(|| Fail::new(place))?;
        let same = other.entry_at(place).ok_or_else(|| Fail::new(place))?;
        assert_eq!(rt; encode(&entry), encode(&same), "{}", place);
    }
    Ok(())
}

// What the calls were told, place by place.
fn check_told(rt: &impl Abort, told: &[Told; 10], expected: Numbers) {
    for (at, (one, expected)) in told.iter().zip(expected).enumerate() {
        assert_eq!(rt; numbers(one), expected, "{}", at);
    }
}

// Makes the past and what follows on both, over journals that are empty at first; three times the same policy.
fn check<J: Journal + Drop, K: Journal + Drop, P: Policy + Drop>(
    rt: &impl Abort,
    (journal, other): (J, K),
    (policy, same, again): (P, P, P),
    (before, after): (Numbers, Numbers),
) -> Result<(), Fail> {
    let (mut told, mut answers, mut lapses, mut bytes) = new_lists();
    let (mut my_told, mut my_answers, mut my_lapses, mut my_bytes) = new_lists();
    let (mut their_told, mut their_answers, mut their_lapses, mut their_bytes) = new_lists();
    let (first, second, arrival) = history(
        journal,
        policy,
        &past(),
        written(other, same),
        again,
        &further(),
        &orders(),
        &mut Desk::new(&mut told, &mut answers, &mut lapses, &mut bytes),
        &mut Desk::new(&mut my_told, &mut my_answers, &mut my_lapses, &mut my_bytes),
        &mut Desk::new(
            &mut their_told,
            &mut their_answers,
            &mut their_lapses,
            &mut their_bytes,
        ),
    );
    assert!(rt; first.reading().is_ok() && second.reading().is_ok());
    // between past and further calls the second book moves on, and one reservation lapses there too
    assert_eq!(rt; numbers(&Told::Moved(arrival)), (0, 1));
    check_told(rt, &told, before);
    check_told(rt, &my_told, after);
    check_told(rt, &their_told, after);
    assert!(rt;
        my_answers == their_answers && my_lapses == their_lapses && my_bytes == their_bytes
    );
    let ((one, _), (other, _)) = (first.close(), second.close());
    check_entries(rt, &one, &other)
}

// What the past and the further calls are told, where the past's last batch has so many orders that are taken, so much
// is posted from the first account in all, and the listing is so long.
fn expected(taken: u64, posted: u64, length: u64) -> (Numbers, Numbers) {
    let past = [
        (0, 0),
        (0, 0),
        (41, 0),
        (0, 3),
        (0, 0),
        (0, 2),
        (0, taken),
        (52, 0),
        (0, 1),
        // no call is told at this place
        (255, 0),
    ];
    let further = [
        (0, 2),
        (51, 0),
        (0, 1),
        (0, 0),
        (0, posted),
        (0, 1),
        (0, 209),
        (0, 0),
        (56, 0),
        (0, length),
    ];
    (past, further)
}

#[test]
fn open_over_two_rolls(rt: HostRuntime) -> Result<(), Fail> {
    let rolls = (Roll::new(), Roll::new());
    check(&rt, rolls, (Open, Open, Open), expected(3, 1065, 83))
}

#[test]
fn floor_over_a_strip_and_a_roll(rt: HostRuntime) -> Result<(), Fail> {
    let mut memory = [7; MEMORY];
    let journals = (Strip::make(&mut memory, 0), Roll::new());
    check(&rt, journals, (Floor, Floor, Floor), expected(1, 465, 73))
}

#[test]
fn ceiling_over_a_mirror_and_a_strip(rt: HostRuntime) -> Result<(), Fail> {
    let (mut memory, mut other) = ([0; MEMORY], [9; MEMORY]);
    let mirror = Mirror::new(Roll::new(), Strip::make(&mut memory, 0));
    let journals = (mirror, Strip::make(&mut other, 0));
    check(
        &rt,
        journals,
        (Ceiling, Ceiling, Ceiling),
        expected(1, 465, 73),
    )
}

fn mixed() -> ByClass<Floor, Ceiling> {
    ByClass {
        below: Floor,
        class: 2,
        from: Ceiling,
    }
}

#[test]
fn by_class_over_mirrors(rt: HostRuntime) -> Result<(), Fail> {
    let mirror = Mirror::new(Roll::new(), Mirror::new(Roll::new(), Roll::new()));
    let journals = (mirror, Roll::new());
    check(
        &rt,
        journals,
        (mixed(), mixed(), mixed()),
        expected(2, 465, 81),
    )
}
