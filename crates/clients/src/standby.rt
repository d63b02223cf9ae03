// A standby book takes over from another, over another kind of journal. Nothing is assumed of past and further calls.
ghost use Rattle.std.specs.Prelude.{◌≡◌};
ghost use Rattle.promise.specs.Made.{Same};
ghost use Rattle.promise.specs.Pairs.{pair};
ghost use Rattle.clients.specs.Handed.{HandedOver};
ghost use Rattle.clients.specs.Seasons.{season, season_was, season_wrote};

use book::Book;
use journal::{Journal, Mirror, Roll};
use meaning::{Moved, Order, Refusal};
use policy::{ByClass, Ceiling, Floor, Open, Policy};
use promise::histories::history;
use promise::runs::run_calls;
use promise::{Call, Desk, Told};

// Each policy decides for some classes.
pub type Season = ByClass<Open, ByClass<Floor, Ceiling>>;

fn season() -> Season
    ensures { ⟦<Season as Policy>⟧.admits result ≡ season }
{
    ByClass {
        below: Open,
        class: 2,
        from: ByClass {
            below: Floor,
            class: 3,
            from: Ceiling,
        },
    }
}

// Makes a past on a book of its own, from nothing on; the two rolls that it wrote.
fn written(past: &[Call], orders: &[Order]) -> Mirror<Roll, Roll>
    ensures entries { ⟦<Mirror<Roll, Roll> as Journal>⟧.entries result ≡ season_wrote orders.now past.now }
    ensures spare { ⟦<Mirror<Roll, Roll> as Journal>⟧.spare result ≡ (season_was orders.now past.now).spare }
{
    let mut told = [Told::Nothing; 16];
    let mut answers = [Ok(()); 64];
    let mut lapses = [0; 256];
    let mut bytes = [0; 4096];
    let mut desk = Desk::new(&mut told, &mut answers, &mut lapses, &mut bytes);
    let mut book = Book::create(Mirror::new(Roll::new(), Roll::new()), season());
    run_calls(&mut book, past, orders, &mut desk);
    let (journal, _) = book.close();
    journal
}

// Makes the past on a first book, over one roll. A second book takes over from what the past has written into two, and
// every further call is made on both. Where the desks are alike, both agree after every call. The last of the result is
// what the second book's move to the first one's moment answers.
pub fn hand_over(
    past: &[Call],
    further: &[Call],
    orders: &[Order],
    mine: &mut Desk<'_>,
    theirs: &mut Desk<'_>,
) -> (
    Book<Roll, Season>,
    Book<Mirror<Roll, Roll>, Season>,
    Result<Moved, Refusal>,
)
    ensures same { Same mine.old mine.new × Same theirs.old theirs.new }
    ensures handed { HandedOver orders.now past.now further.now mine.old theirs.old
        (pair result.0 mine.new result.1 theirs.new) result.2 }
{
    let mut told = [Told::Nothing; 16];
    let mut answers = [Ok(()); 64];
    let mut lapses = [0; 256];
    let mut bytes = [0; 4096];
    let mut before = Desk::new(&mut told, &mut answers, &mut lapses, &mut bytes);
    let standby = written(past, orders);
    history(
        Roll::new(),
        season(),
        past,
        standby,
        season(),
        further,
        orders,
        &mut before,
        mine,
        theirs,
    )
}
