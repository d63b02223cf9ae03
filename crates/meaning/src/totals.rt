// The four totals of an account.
ghost use Rattle.std.specs.Prelude.{◌≡◌};

use crate::side::Side;

#[derive(Clone, Copy)]
pub struct Totals {
    pub debits: Side,
    pub credits: Side,
}

impl Totals {
    // A `Default` by hand would say no more than this name.
    pub fn zero() -> Totals
        ensures debits { (result.debits.pending ≡ 0) × (result.debits.posted ≡ 0) }
        ensures credits { (result.credits.pending ≡ 0) × (result.credits.posted ≡ 0) }
    {
        Totals {
            debits: Side::zero(),
            credits: Side::zero(),
        }
    }
}
