// Whole runs: any past, and any further calls on a book and on one that takes over from it.
ghost use Rattle.promise.specs.Made.{Same};
ghost use Rattle.promise.specs.Pairs.{pair};
ghost use Rattle.promise.specs.Histories.{History};

use crate::call::Call;
use crate::desk::Desk;
use crate::runs::run_calls;
use crate::takeovers::take_over;
use book::Book;
use journal::Journal;
use meaning::{Moved, Order, Refusal};
use policy::Policy;

// Creates a book and makes every call of its past. Then a second one over another journal takes over from it, and every
// further call is made on both. The last of the result is what the second book's move answers. The contract names each
// of the lists.
pub fn history<J: Journal, P: Policy, K: Journal, Q: Policy>(
    journal: J,
    policy: P,
    past: &[Call],
    other: K,
    other_policy: Q,
    further: &[Call],
    orders: &[Order],
    before: &mut Desk<'_>,
    mine: &mut Desk<'_>,
    theirs: &mut Desk<'_>,
) -> (Book<J, P>, Book<K, Q>, Result<Moved, Refusal>)
    ensures same { Same before.old before.new × Same mine.old mine.new × Same theirs.old theirs.new }
    ensures history { History (P.Policy.admits policy) orders.now journal past.now further.now
        before.old mine.old other other_policy theirs.old before.new
        (pair result.0 mine.new result.1 theirs.new) result.2 }
{
    let mut first = Book::create(journal, policy);
    run_calls(&mut first, past, orders, before);
    let (second, arrival) = take_over(
        &mut first,
        other,
        other_policy,
        further,
        orders,
        mine,
        theirs,
    );
    (first, second, arrival)
}
