// The four policies. Each side's sum and each limit is at most the top, so no sum of two overflows.
ghost use Rattle.std.specs.Prelude.{◌≡◌, ◌+◌, nat_le};
ghost use Rattle.meaning.specs.Policies.{open_to_all, floor, ceiling, by_class};
ghost use Rattle.std.proofs.Common.{rules};

use crate::policy::Policy;
use meaning::{Limit, Side, Totals};

// Whether all of one side stays within what is posted on the other and a limit.
fn covers(drawn: &Side, other: &Side, limit: Limit) -> bool
    ensures { result ≡ nat_le (drawn.now.pending + drawn.now.posted) (other.now.posted + limit.litres) }
{
    drawn.pending + drawn.posted <= other.posted + limit.litres
}

// Admits everything.
#[derive(Clone, Copy)]
pub struct Open;

impl Policy for Open {
    ghost admits = { λ _. open_to_all };

    ghost lawful = { Prim.search rules };

    fn admits(&self, _class: u8, _limit: Limit, _totals: &Totals) -> bool {
        true
    }
}

// No more may be drawn than has come in, and the limit. Pending credits are no water to draw.
#[derive(Clone, Copy)]
pub struct Floor;

impl Policy for Floor {
    ghost admits = { λ _. floor };

    ghost lawful = { Prim.search rules };

    fn admits(&self, _class: u8, limit: Limit, totals: &Totals) -> bool {
        covers(&totals.debits, &totals.credits, limit)
    }
}

// No more may come in than has been drawn, and the limit. It mirrors `Floor`; what they share is `covers`.
#[derive(Clone, Copy)]
pub struct Ceiling;

impl Policy for Ceiling {
    ghost admits = { λ _. ceiling };

    ghost lawful = { Prim.search rules };

    fn admits(&self, _class: u8, limit: Limit, totals: &Totals) -> bool {
        covers(&totals.credits, &totals.debits, limit)
    }
}

// One policy for the classes below a stated one, another from it on.
#[derive(Drop)]
pub struct ByClass<P: Policy, Q: Policy> {
    pub below: P,
    pub class: u8,
    pub from: Q,
}

impl<P: Policy, Q: Policy> Policy for ByClass<P, Q> {
    ghost admits = { λ b. by_class b.class (P.Policy.admits b.below) (Q.Policy.admits b.from) };

    ghost lawful = { Prim.search rules };

    fn admits(&self, class: u8, limit: Limit, totals: &Totals) -> bool {
        if class < self.class {
            self.below.admits(class, limit, totals)
        } else {
            self.from.admits(class, limit, totals)
        }
    }
}
