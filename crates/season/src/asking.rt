// The calls on a book, each made by hand, with what it was told.
use crate::told::{show_refusal, show_told};
use book::Book;
use journal::Journal;
use meaning::{Opening, Order, Refusal, Standing, number_of};
use policy::Policy;
use promise::{Ask, Told};
use std::io;
use std::io::Write;

const BATCH: usize = 8;

pub fn ask<J: Journal, P: Policy>(
    rt: &HostRuntime,
    book: &mut Book<J, P>,
    orders: &[Order],
    ask: &Ask,
) -> io::Result<()> {
    match ask {
        Ask::Open(opening) => open(rt, book, opening),
        Ask::Run { orders: span, .. } => {
            run(rt, book, orders.get(span.from..span.to).unwrap_or(&[]))
        }
        Ask::Move { moment, .. } => move_to(rt, book, *moment),
        Ask::Report(_) => report(rt, book),
        Ask::Reservation(number) => show_fate(rt, book, *number),
        Ask::Account(number) => show_told(
            rt,
            &Told::Account(book.account(*number).map(Standing::from)),
        ),
        Ask::Moment => show_told(rt, &Told::Moment(book.moment())),
        Ask::Reading => show_told(rt, &Told::Reading(book.reading())),
    }
}

fn open<J: Journal, P: Policy>(
    rt: &HostRuntime,
    book: &mut Book<J, P>,
    opening: &Opening,
) -> io::Result<()> {
    let answer = number_of(&book.open(opening));
    println!(rt; "{opening} -> {answer}")
}

// Runs a batch, and prints each order with its answer.
fn run<J: Journal, P: Policy>(
    rt: &HostRuntime,
    book: &mut Book<J, P>,
    orders: &[Order],
) -> io::Result<()> {
    let mut answers = [Err(Refusal::AnswersTooShort); BATCH];
    match book.run(orders, &mut answers) {
        Ok(taken) => {
            for (order, answer) in orders.iter().zip(answers.iter()) {
                let answer = number_of(answer);
                println!(rt; "{order} -> {answer}")?;
            }
            println!(rt; "batch -> {taken} taken")
        }
        Err(refusal) => show_refusal(rt, "batch", refusal),
    }
}

pub fn move_to<J: Journal, P: Policy>(
    rt: &HostRuntime,
    book: &mut Book<J, P>,
    moment: u64,
) -> io::Result<()> {
    let mut lapses = [0u32; BATCH];
    match book.move_to(moment, &mut lapses) {
        Ok(moved) => {
            let lapsed = moved.lapsed;
            let next = moved.next_deadline;
            println!(rt; "move to {moment} -> {lapsed} lapsed, next deadline {next}")?;
            for number in lapses.iter().take(moved.lapsed as usize) {
                println!(rt; "lapsed: {number}")?;
            }
            Ok(())
        }
        Err(refusal) => show_refusal(rt, "move", refusal),
    }
}

fn show_fate<J: Journal, P: Policy>(
    rt: &HostRuntime,
    book: &Book<J, P>,
    number: u32,
) -> io::Result<()> {
    match book.reservation(number) {
        Some(held) => {
            let fate = held.fate;
            println!(rt; "reservation {number}: {fate}")
        }
        None => println!(rt; "reservation {number}: none"),
    }
}

fn report<J: Journal, P: Policy>(rt: &HostRuntime, book: &Book<J, P>) -> io::Result<()> {
    let mut buffer = [0u8; 1024];
    match book.report(&mut buffer) {
        Ok(len) => rt.stdout().write_all(&buffer[0..len.min(1024)]),
        Err(refusal) => show_refusal(rt, "report", refusal),
    }
}
