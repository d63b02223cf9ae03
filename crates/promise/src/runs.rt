// Calls one after another.
ghost use Rattle.meaning.specs.Policies.{Agrees};
ghost use Rattle.book.specs.States.{policy_of};
ghost use Rattle.promise.specs.Made.{Same, CallsAll};
ghost use Rattle.promise.specs.Pairs.{pair, Agree, Together};

use crate::call::Call;
use crate::calling::call;
use crate::desk::Desk;
use book::Book;
use journal::Journal;
use meaning::Order;
use policy::Policy;

// Makes the calls in order, each on what its predecessor left.
pub fn run_calls<J: Journal, P: Policy>(
    book: &mut Book<J, P>,
    calls: &[Call],
    orders: &[Order],
    desk: &mut Desk<'_>,
)
    ensures same { Same desk.old desk.new }
    ensures made { CallsAll J.Journal P.Policy orders.now book.old desk.old calls.now book.new desk.new }
{
    for next in calls {
        call(book, next, orders, desk);
    }
}

// Makes the calls in order on two books, each on both before the next. Two that agree, with policies
// that say the same of all that an account can have, do so after every call.
pub fn run_both<J: Journal, P: Policy, K: Journal, Q: Policy>(
    first: &mut Book<J, P>,
    second: &mut Book<K, Q>,
    calls: &[Call],
    orders: &[Order],
    mine: &mut Desk<'_>,
    theirs: &mut Desk<'_>,
)
    ensures same { Same mine.old mine.new × Same theirs.old theirs.new }
    ensures first { CallsAll J.Journal P.Policy orders.now first.old mine.old
        calls.now first.new mine.new }
    ensures second { CallsAll K.Journal Q.Policy orders.now second.old theirs.old
        calls.now second.new theirs.new }
    ensures together { Agrees (policy_of K.Journal Q.Policy second.old)
        (policy_of J.Journal P.Policy first.old)
        → Agree (pair first.old mine.old second.old theirs.old)
        → Together orders.now calls.now
        (pair first.old mine.old second.old theirs.old)
        (pair first.new mine.new second.new theirs.new) }
{
    for next in calls {
        call(first, next, orders, mine);
        call(second, next, orders, theirs);
    }
}
