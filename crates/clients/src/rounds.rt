// A round of a station that keeps its journal in a memory of its own, and nothing else from round to round.
ghost use Rattle.std.specs.Prelude.{◌≡◌, ◌++◌};
ghost use Rattle.meaning.specs.Calls.{run_writes, run_answers};
ghost use Rattle.journal.specs.Strips.{made_list};
ghost use Rattle.steps.specs.Written.{entries_of};
ghost use Rattle.clients.specs.Rounds.{found, left, in_use};

use book::Book;
use journal::Strip;
use meaning::{Answer, Order};
use policy::Policy;

// The round, and the memory again with how many of its bytes are in use.
fn round<'a, P: Policy + Drop>(
    memory: &'a mut [u8],
    used: usize,
    policy: P,
    orders: &[Order],
    answers: &mut [Answer],
) -> (&'a mut [u8], usize)
    ensures answers { answers.new ≡ run_answers (P.Policy.admits policy) (found memory.old used (P.Policy.admits policy)) orders.now answers.old }
    ensures home { result.0.ghost_name ≡ memory.entry.ghost_name }
    ensures bytes { result.0.now ≡ left memory.old used (run_writes (P.Policy.admits policy) (found memory.old used (P.Policy.admits policy)) orders.now answers.old) }
    ensures used { result.1 ≡ in_use memory.old used (run_writes (P.Policy.admits policy) (found memory.old used (P.Policy.admits policy)) orders.now answers.old) }
    ensures again { made_list result.0.now result.1 ≡ made_list memory.old used ++ entries_of (run_writes (P.Policy.admits policy) (found memory.old used (P.Policy.admits policy)) orders.now answers.old) }
{
    let mut book = Book::create(Strip::make(memory, used), policy);
    let _ = book.run(orders, answers);
    let (strip, _) = book.close();
    let used = strip.used();
    (strip.give_back(), used)
}

// Makes a book of what the memory holds, runs the orders at the moment of its last entry, and lets the book go. The
// answer is how many bytes are in use then: given to the next round, it finds the entries that were there and the new.
pub fn run_round<P: Policy + Drop>(
    memory: &mut [u8],
    used: usize,
    policy: P,
    orders: &[Order],
    answers: &mut [Answer],
) -> usize
    ensures answers { answers.new ≡ run_answers (P.Policy.admits policy) (found memory.old used (P.Policy.admits policy)) orders.now answers.old }
    ensures memory { memory.new ≡ left memory.old used (run_writes (P.Policy.admits policy) (found memory.old used (P.Policy.admits policy)) orders.now answers.old) }
    ensures used { result ≡ in_use memory.old used (run_writes (P.Policy.admits policy) (found memory.old used (P.Policy.admits policy)) orders.now answers.old) }
    ensures again { made_list memory.new result ≡ made_list memory.old used ++ entries_of (run_writes (P.Policy.admits policy) (found memory.old used (P.Policy.admits policy)) orders.now answers.old) }
{
    let (_memory, used) = round(memory, used, policy, orders, answers);
    used
}
