// A client's own policy: an account may draw an eighth of what has come in, and of its limit. It reckons with 64 bits, which
// would wrap beyond the top; no account is there, so it owes its laws on what an account can have, and no further.
ghost use Rattle.std.specs.Prelude.{◌≡◌, ◌++◌};
ghost use Rattle.std.proofs.Common.{rules};
ghost use Rattle.meaning.specs.Calls.{run_writes, run_answers};
ghost use Rattle.meaning.specs.Policies.{Lawful};
ghost use Rattle.journal.specs.Strips.{made_list};
ghost use Rattle.steps.specs.Written.{entries_of};
ghost use Rattle.clients.specs.Eighths.{in_64_bits, eighth, LawBeyond};
ghost use Rattle.clients.specs.Rounds.{found, left};

use crate::rounds::run_round;
use meaning::{Answer, Limit, Order, Totals};
use policy::Policy;

#[derive(Clone, Copy, Debug, PartialEq, Eq)]
pub struct Eighth;

impl Policy for Eighth {
    ghost admits = { λ _. eighth };

    ghost lawful = { Prim.search rules };

    fn admits(&self, _class: u8, limit: Limit, totals: &Totals) -> bool {
        let drawn = totals.debits.pending + totals.debits.posted;
        drawn.wrapping_mul(8) <= totals.credits.posted.wrapping_add(limit.litres)
    }
}

/// What the policy reckons keeps the laws on what an account can have, and breaks one of them beyond.
pub fn wraps_beyond()
    ensures there { Lawful eighth }
    ensures beyond { ¬ (LawBeyond in_64_bits) }
{}

/// A round of a station under this policy, as `run_round` makes it; how many bytes of the memory are in use then.
pub fn run_frugal_round(
    memory: &mut [u8],
    used: usize,
    orders: &[Order],
    answers: &mut [Answer],
) -> usize
    ensures answers { answers.new ≡ run_answers eighth (found memory.old used eighth) orders.now answers.old }
    ensures memory { memory.new ≡ left memory.old used (run_writes eighth (found memory.old used eighth) orders.now answers.old) }
    ensures again { made_list memory.new result ≡ made_list memory.old used ++ entries_of (run_writes eighth (found memory.old used eighth) orders.now answers.old) }
{
    run_round(memory, used, Eighth, orders, answers)
}
