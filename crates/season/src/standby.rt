// The season once more, as calls from values on a book over a roll; then a second book takes over from the strip that the
// program has written, and every further call is made on both. The contract of `history` says what both are told.
use crate::plan::{after_the_season, calls, orders, policy, season};
use crate::told::show_told;
use journal::{Journal, Roll, Strip};
use meaning::{Answer, number_of};
use promise::histories::history;
use promise::{Desk, Told};
use std::io;

type Lists = ([Told; 16], [Answer; 16], [u32; 8], [u8; 1024]);

fn new_lists() -> Lists {
    ([Told::Nothing; 16], [Ok(()); 16], [0; 8], [0; 1024])
}

pub fn take_over(rt: &HostRuntime, memory: &mut [u8], used: usize) -> io::Result<()> {
    take_over_from(rt, Roll::new(), Strip::make(memory, used))
}

// Over any two journals, since the borrow checker takes no pair of books of which one holds a borrow.
fn take_over_from<J: Journal + Drop, K: Journal + Drop>(
    rt: &HostRuntime,
    journal: J,
    other: K,
) -> io::Result<()> {
    let (mut told, mut answers, mut lapses, mut bytes) = new_lists();
    let (mut my_told, mut my_answers, mut my_lapses, mut my_bytes) = new_lists();
    let (mut their_told, mut their_answers, mut their_lapses, mut their_bytes) = new_lists();
    let further = calls(after_the_season());
    let (first, second, arrival) = history(
        journal,
        policy(),
        &calls(season()),
        other,
        policy(),
        &further,
        &orders(),
        &mut Desk::new(&mut told, &mut answers, &mut lapses, &mut bytes),
        &mut Desk::new(&mut my_told, &mut my_answers, &mut my_lapses, &mut my_bytes),
        &mut Desk::new(
            &mut their_told,
            &mut their_answers,
            &mut their_lapses,
            &mut their_bytes,
        ),
    );
    println!(rt; "the season once more, over a roll; a second book takes over from the strip")?;
    show(rt, "second", &Told::Moved(arrival))?;
    for (one, other) in my_told.iter().zip(their_told.iter()).take(further.len()) {
        show(rt, "first", one)?;
        show(rt, "second", other)?;
    }
    show_answers(rt, "first", &my_answers)?;
    show_answers(rt, "second", &their_answers)?;
    let lapses = my_lapses == their_lapses;
    let bytes = my_bytes == their_bytes;
    println!(rt; "lapses equal: {lapses}, listings equal: {bytes}")?;
    let ((roll, _), (strip, _)) = (first.close(), second.close());
    let (entries, others) = (roll.count(), strip.count());
    println!(rt; "entries: {entries} and {others}")
}

fn show(rt: &HostRuntime, whose: &str, told: &Told) -> io::Result<()> {
    print!(rt; "{whose}: ")?;
    show_told(rt, told)
}

fn show_answers(rt: &HostRuntime, whose: &str, answers: &[Answer]) -> io::Result<()> {
    print!(rt; "{whose}: answers")?;
    for answer in answers {
        let answer = number_of(answer);
        print!(rt; " {answer}")?;
    }
    println!(rt; "")
}
