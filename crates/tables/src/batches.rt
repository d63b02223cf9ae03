// Batches and chains: refusals 11 to 15.
use crate::books::{open_many, reserve, transfer};
use book::Book;
use journal::{Journal, Roll, Strip};
use meaning::{Action, Answer, Order, Refusal, number_of};
use policy::{Open, Policy};
use std::test::Fail;

// What stands at a place to which nothing was written.
const UNTOUCHED: Answer = Err(Refusal::BufferTooShort);

fn order(number: u32, linked: bool, action: Action) -> Order {
    Order {
        number,
        linked,
        action,
    }
}

// Linked transfers, numbered from `first` on, but for the one at the end, if there is an end.
fn chain(first: u32, end: Option<usize>) -> [Order; 20] {
    let mut orders = [order(first, true, transfer(1, 2, 1)); 20];
    for (i, order) in orders.iter_mut().enumerate() {
        order.number = first.saturating_add(i as u32);
        order.linked = end != Some(i);
    }
    orders
}

// Runs a chain of so many legs, at most twenty; the answers of its first and last order.
fn run_chain<J: Journal, P: Policy>(
    book: &mut Book<J, P>,
    legs: usize,
    has_end: bool,
    first: u32,
) -> Result<(Answer, Answer), Refusal> {
    let legs = legs.clamp(1, 20);
    let end = has_end.then_some(legs - 1);
    let orders = chain(first, end);
    let mut answers = [UNTOUCHED; 20];
    book.run(&orders[0..legs], &mut answers[0..legs])?;
    Ok((answers[0], answers[legs - 1]))
}

#[test]
fn chains(rt: HostRuntime) -> Result<(), Fail> {
    // spare, legs, whether it has an end, first number; first answer, last answer
    let cases = [
        (20, 1, true, 1, 0, 0),
        (20, 1, false, 1, 12, 12),
        (20, 2, false, 1, 11, 12),
        (20, 16, true, 1, 0, 0),
        (20, 17, true, 1, 13, 13),
        (0, 1, true, 1, 14, 14),
        (1, 1, true, 1, 0, 0),
        (1, 2, true, 1, 14, 14),
        (2, 2, true, 1, 0, 0),
        (20, 2, true, 0, 21, 11),
        // two conditions hold
        (20, 17, false, 1, 11, 12),
        (1, 2, false, 1, 11, 12),
        (16, 17, true, 1, 13, 13),
        (1, 2, true, 0, 14, 14),
    ];
    for (i, (spare, legs, has_end, first, first_answer, last_answer)) in cases
        .into_iter()
        .enumerate()
    {
        let mut memory = [0; 1057];
        let bytes = 97 + 48 * spare.min(20);
        let strip = Strip::make(&mut memory[0..bytes], 0);
        let mut book = Book::create(strip, Open);
        assert!(rt; open_many(&mut book, 2).is_ok());
        let (one, other) = run_chain(&mut book, legs, has_end, first).map_err(|_| Fail::new(i))?;
        assert_eq!(rt; number_of(&one), first_answer, "{}", i);
        assert_eq!(rt; number_of(&other), last_answer, "{}", i);
    }
    Ok(())
}

#[test]
fn batches_by_their_answer_list(rt: HostRuntime) {
    // orders, places; answer, orders taken
    let cases = [
        (0, 0, 0, 0),
        (2, 0, 15, 0),
        (2, 1, 15, 0),
        (2, 2, 0, 2),
        (2, 3, 0, 2),
    ];
    for (i, (many, places, answer, taken)) in cases.into_iter().enumerate() {
        let mut book = Book::create(Roll::new(), Open);
        assert!(rt; open_many(&mut book, 2).is_ok());
        let orders = [
            order(1, false, transfer(1, 2, 1)),
            order(2, false, transfer(1, 2, 1)),
        ];
        let mut answers = [UNTOUCHED; 3];
        let many = many.min(2);
        let got = book.run(&orders[0..many], &mut answers[0..places.min(3)]);
        assert_eq!(rt; number_of(&got), answer, "{}", i);
        assert_eq!(rt; got.unwrap_or(0), taken, "{}", i);
        assert_eq!(rt;
            number_of(&answers[0]),
            if taken == 0 { 56 } else { 0 },
            "{}",
            i
        );
        assert_eq!(rt; number_of(&answers[2]), 56, "{}", i);
    }
}

#[test]
fn a_batch_of_chains(rt: HostRuntime) {
    let mut book = Book::create(Roll::new(), Open);
    assert!(rt; open_many(&mut book, 2).is_ok());
    let orders = [
        order(11, false, transfer(1, 2, 100)),
        order(12, true, transfer(1, 2, 50)),
        order(12, false, transfer(2, 1, 10)),
        order(12, true, reserve(1, 2, 30, 60)),
        order(
            13,
            false,
            Action::Post {
                reservation: 12,
                amount: 30,
            },
        ),
        order(14, true, Action::Void { reservation: 12 }),
    ];
    let mut answers = [UNTOUCHED; 8];
    let taken = book.run(&orders, &mut answers).unwrap_or(99);
    assert_eq!(rt; taken, 3);
    let expected = [0, 11, 21, 0, 0, 12, 56, 56];
    for (i, (answer, expected)) in answers.iter().zip(expected).enumerate() {
        assert_eq!(rt; number_of(answer), expected, "{}", i);
    }
    let (roll, _) = book.close();
    assert_eq!(rt; roll.count(), 5);
}
