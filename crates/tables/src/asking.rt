// One call on a book, with a list or a buffer of its own. The tables of cases hold the numbers that users read.
use book::Book;
use journal::Journal;
use meaning::{Action, Answer, Moved, Order, Refusal};
use policy::Policy;

// One order, in a batch of its own.
pub fn run_one<J: Journal, P: Policy>(
    book: &mut Book<J, P>,
    number: u32,
    action: Action,
) -> Answer {
    let orders = [Order {
        number,
        linked: false,
        action,
    }];
    let mut answers = [Err(Refusal::AnswersTooShort)];
    book.run(&orders, &mut answers)?;
    answers[0]
}

// A move with so many places for lapses, at most eight.
pub fn move_to<J: Journal, P: Policy>(
    book: &mut Book<J, P>,
    moment: u64,
    places: usize,
) -> Result<Moved, Refusal> {
    let mut lapses = [0; 8];
    book.move_to(moment, &mut lapses[0..places.min(8)])
}

// A report into so many bytes, at most 512.
pub fn report<J: Journal, P: Policy>(book: &Book<J, P>, bytes: usize) -> Result<usize, Refusal> {
    let mut buffer = [0; 512];
    book.report(&mut buffer[0..bytes.min(512)])
}
