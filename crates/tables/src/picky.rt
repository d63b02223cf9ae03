// A client's own policy, which admits only the classes below a stated one, also with four zeros.
ghost use Rattle.std.specs.Prelude.{nat_lt};
ghost use Rattle.std.proofs.Common.{rules};
ghost use Rattle.meaning.specs.Policies.{bounded};

use meaning::{Limit, Totals};
use policy::Policy;

#[derive(Clone, Copy)]
pub struct Picky {
    pub class: u8,
}

impl Policy for Picky {
    ghost admits = { λ p. bounded (λ class limit dp dq cp cq. nat_lt class p.class) };

    ghost lawful = { Prim.search rules };

    fn admits(&self, class: u8, _limit: Limit, _totals: &Totals) -> bool {
        class < self.class
    }
}
