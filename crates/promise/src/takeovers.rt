// A second book takes over from a book in hand.
ghost use Rattle.std.specs.Prelude.{◌≡◌};
ghost use Rattle.promise.specs.Kept.{Keeps};
ghost use Rattle.promise.specs.Made.{Same, CallsAll};
ghost use Rattle.promise.specs.Pairs.{Alike, pair};
ghost use Rattle.promise.specs.Takeovers.{point_of, Fits, TakenOver, InStep};

use crate::call::Call;
use crate::desk::Desk;
use crate::runs::run_both;
use book::Book;
use journal::Journal;
use meaning::limits::RESERVATIONS;
use meaning::{Moved, Order, Refusal};
use policy::Policy;

// Creates a second book over another journal, moves it to the first one's moment, and makes every further call on both,
// whatever has happened to the first. The last of the result is what the move answers.
pub fn take_over<J: Journal, P: Policy, K: Journal, Q: Policy>(
    first: &mut Book<J, P>,
    other: K,
    other_policy: Q,
    further: &[Call],
    orders: &[Order],
    mine: &mut Desk<'_>,
    theirs: &mut Desk<'_>,
) -> (Book<K, Q>, Result<Moved, Refusal>)
    ensures same { Same mine.old mine.new × Same theirs.old theirs.new }
    ensures first { CallsAll J.Journal P.Policy orders.now first.old mine.old
        further.now first.new mine.new }
    ensures keeps { first.old.reading ≡ Ok tt → Keeps J.Journal P.Policy first.new }
    ensures second { TakenOver (point_of J.Journal P.Policy first.old) orders.now further.now
        mine.old other other_policy theirs.old
        (pair first.new mine.new result.0 theirs.new) result.1 }
    ensures together { Fits K.Journal Q.Policy (point_of J.Journal P.Policy first.old)
        other other_policy
        → Alike mine.old theirs.old
        → InStep orders.now further.now first.old mine.old other other_policy theirs.old
        (pair first.new mine.new result.0 theirs.new) result.1 }
{
    let mut second = Book::create(other, other_policy);
    let mut lapses = [0u32; RESERVATIONS];
    let arrival = second.move_to(first.moment(), &mut lapses);
    run_both(first, &mut second, further, orders, mine, theirs);
    (second, arrival)
}
