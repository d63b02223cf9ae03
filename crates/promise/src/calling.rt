// Calls on a book, made from values.
ghost use Rattle.std.specs.Prelude.{List};
ghost use Rattle.meaning.specs.declared.order.Order.{Order as Ordered};
ghost use Rattle.promise.specs.declared.call.Ask.TheVariants.{Open, Run, Move, Report};
ghost use Rattle.promise.specs.Made.{Same, Calls};

use crate::call::{Ask, Call, Span};
use crate::desk::{Desk, put};
use crate::told::{Told, state_account};
use book::Book;
use journal::Journal;
use meaning::{Opening, Order};
use policy::Policy;

// One function for each call that takes a list or an opening: what they share is `put`, and that the desk's lists stay
// where they are (`Same`), which relates two states, so no type can say it. A span is tested before it is used: `get` of
// a range would need a second name for each list, and the definition of a call that is not made has that test.
fn ask_open<J: Journal, P: Policy>(
    book: &mut Book<J, P>,
    at: usize,
    opening: &Opening,
    desk: &mut Desk<'_>,
)
    ensures same { Same desk.old desk.new }
    ensures made { (os : List Ordered) → Calls J.Journal P.Policy os book.old desk.old (record { at = at; ask = Open opening.now }) book.new desk.new }
{
    let told = Told::Opened(book.open(opening));
    put(desk.told, at, told);
}

fn ask_run<J: Journal, P: Policy>(
    book: &mut Book<J, P>,
    at: usize,
    orders: &[Order],
    legs: Span,
    answers: Span,
    desk: &mut Desk<'_>,
)
    ensures same { Same desk.old desk.new }
    ensures made { Calls J.Journal P.Policy orders.now book.old desk.old (record { at = at; ask = Run legs answers }) book.new desk.new }
{
    if legs.is_within(orders.len()) && answers.is_within(desk.answers.len()) {
        let (first, end) = (legs.from, legs.to);
        let (from, to) = (answers.from, answers.to);
        let told = Told::Ran(book.run(&orders[first..end], &mut desk.answers[from..to]));
        put(desk.told, at, told);
    }
}

fn ask_move<J: Journal, P: Policy>(
    book: &mut Book<J, P>,
    at: usize,
    moment: u64,
    lapses: Span,
    desk: &mut Desk<'_>,
)
    ensures same { Same desk.old desk.new }
    ensures made { (os : List Ordered) → Calls J.Journal P.Policy os book.old desk.old (record { at = at; ask = Move moment lapses }) book.new desk.new }
{
    if lapses.is_within(desk.lapses.len()) {
        let (from, to) = (lapses.from, lapses.to);
        let told = Told::Moved(book.move_to(moment, &mut desk.lapses[from..to]));
        put(desk.told, at, told);
    }
}

fn ask_report<J: Journal, P: Policy>(book: &Book<J, P>, at: usize, bytes: Span, desk: &mut Desk<'_>)
    ensures same { Same desk.old desk.new }
    ensures made { (os : List Ordered) → Calls J.Journal P.Policy os book.now desk.old (record { at = at; ask = Report bytes }) book.now desk.new }
{
    if bytes.is_within(desk.bytes.len()) {
        let (from, to) = (bytes.from, bytes.to);
        let told = Told::Reported(book.report(&mut desk.bytes[from..to]));
        put(desk.told, at, told);
    }
}

// Makes a call, and writes what it is told at its place on the desk. One whose lists are not on the desk does nothing.
pub fn call<J: Journal, P: Policy>(
    book: &mut Book<J, P>,
    call: &Call,
    orders: &[Order],
    desk: &mut Desk<'_>,
)
    ensures same { Same desk.old desk.new }
    ensures made { Calls J.Journal P.Policy orders.now book.old desk.old call.now book.new desk.new }
{
    let at = call.at;
    match call.ask {
        Ask::Open(opening) => ask_open(book, at, &opening, desk),
        Ask::Run {
            orders: legs,
            answers,
        } => ask_run(book, at, orders, legs, answers, desk),
        Ask::Move { moment, lapses } => ask_move(book, at, moment, lapses, desk),
        Ask::Report(bytes) => ask_report(book, at, bytes, desk),
        Ask::Account(number) => {
            let told = Told::Account(state_account(book.account(number)));
            put(desk.told, at, told)
        },
        Ask::Reservation(number) => put(desk.told, at, Told::Reservation(book.reservation(number))),
        Ask::Moment => put(desk.told, at, Told::Moment(book.moment())),
        Ask::Reading => put(desk.told, at, Told::Reading(book.reading())),
    }
}
