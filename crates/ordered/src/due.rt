// The key of a live reservation with a deadline.
ghost use Rattle.ordered.specs.Orders.{due_before};
ghost use Rattle.std.proofs.Common.{rules};

use crate::Key;

// By deadline, then by number.
#[derive(Clone, Copy, PartialEq, Eq, PartialOrd, Ord)]
pub struct Due {
    pub deadline: u64,
    pub number: u32,
}

impl Key for Due {
    ghost before = { due_before };

    ghost irreflexive = { Prim.search rules };

    ghost transitive = { Prim.search rules };

    ghost total = { Prim.search rules };

    fn is_before(&self, other: &Due) -> bool {
        *self < *other
    }
}
