// The key of an account's line in the listing.
ghost use Rattle.ordered.specs.Orders.{line_before};
ghost use Rattle.std.proofs.Common.{rules};

use crate::Key;

// By ledger, then by label, then by number. The fields stand by size, so that no room is lost between them.
#[derive(Clone, Copy, PartialEq, Eq)]
pub struct Line {
    pub label: u64,
    pub number: u32,
    pub ledger: u16,
}

impl Key for Line {
    ghost before = { line_before };

    ghost irreflexive = { Prim.search rules };

    ghost transitive = { Prim.search rules };

    ghost total = { Prim.search rules };

    fn is_before(&self, other: &Line) -> bool {
        (self.ledger, self.label, self.number) < (other.ledger, other.label, other.number)
    }
}
