// A call of a script, made on a book.
ghost use Rattle.std.specs.Prelude.{ℕ, ◌≤◌, List};
ghost use Rattle.meaning.specs.declared.order.Order.{Order as Ordered};
ghost use Rattle.scripts.specs.declared.step.Step.TheVariants.{Open, Run, Move, Report};
ghost use Rattle.scripts.specs.Limits.{most_answers, most_lapses, most_bytes};
ghost use Rattle.scripts.specs.Made.{Made};
ghost use Rattle.scripts.specs.Readers.{orders_in, Within};

use crate::bad::Bad;
use crate::page::Page;
use crate::showing::{
    show_account, show_moment, show_moved, show_opened, show_ran, show_reading, show_reported,
    show_reservation,
};
use crate::step::{ANSWERS, BYTES, LAPSES, ORDERS, Step};
use book::Book;
use journal::Journal;
use meaning::{Opening, Order, Refusal};
use policy::Policy;

// What stands in a list of bytes before a call.
const UNWRITTEN: u8 = 0xa5;

fn open<J: Journal, P: Policy>(
    book: &mut Book<J, P>,
    opening: &Opening,
    page: &mut Page<'_>,
) -> Result<(), Bad>
    ensures { (os : List Ordered) → Made J.Journal P.Policy book.old os (Open opening.now) page.old result book.new page.new }
{
    show_opened(page, &book.open(opening))
}

fn run<J: Journal, P: Policy>(
    book: &mut Book<J, P>,
    orders: &[Order],
    places: usize,
    page: &mut Page<'_>,
) -> Result<(), Bad>
    requires { places ≤ most_answers }
    ensures { (n : ℕ) → Made J.Journal P.Policy book.old orders.now (Run n places) page.old result book.new page.new }
{
    let mut answers = [Err(Refusal::AnswersTooShort); ANSWERS];
    let answers = &mut answers[..places];
    let answer = book.run(orders, answers);
    show_ran(page, &answer, answers)
}

fn move_to<J: Journal, P: Policy>(
    book: &mut Book<J, P>,
    moment: u64,
    places: usize,
    page: &mut Page<'_>,
) -> Result<(), Bad>
    requires { places ≤ most_lapses }
    ensures { (os : List Ordered) → Made J.Journal P.Policy book.old os (Move moment places) page.old result book.new page.new }
{
    let mut lapses = [u32::MAX; LAPSES];
    let lapses = &mut lapses[..places];
    let answer = book.move_to(moment, lapses);
    show_moved(page, &answer, lapses)
}

fn report<J: Journal, P: Policy>(
    book: &Book<J, P>,
    places: usize,
    page: &mut Page<'_>,
) -> Result<(), Bad>
    requires { places ≤ most_bytes }
    ensures { (os : List Ordered) → Made J.Journal P.Policy book.now os (Report places) page.old result book.now page.new }
{
    let mut bytes = [UNWRITTEN; BYTES];
    let bytes = &mut bytes[..places];
    let answer = book.report(bytes);
    show_reported(page, &answer, bytes)
}

pub(crate) fn make<J: Journal, P: Policy>(
    book: &mut Book<J, P>,
    step: &Step,
    list: &[Order; ORDERS],
    page: &mut Page<'_>,
) -> Result<(), Bad>
    requires { Within step.now }
    ensures { Made J.Journal P.Policy book.old (orders_in step.now list.now) step.now page.old result book.new page.new }
{
    match step {
        Step::Open(opening) => open(book, opening, page),
        Step::Run { orders, answers } => run(book, &list[..*orders], *answers, page),
        Step::Move { moment, lapses } => move_to(book, *moment, *lapses, page),
        Step::Report(places) => report(book, *places, page),
        Step::Account(number) => show_account(page, book.account(*number)),
        Step::Reservation(number) => show_reservation(page, book.reservation(*number)),
        Step::Moment => show_moment(page, book.moment()),
        Step::Reading => show_reading(page, book.reading()),
    }
}
