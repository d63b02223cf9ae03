// One of the policies that know no classes. A script names it by its number.
ghost use Rattle.std.specs.Prelude.{◌≡◌};
ghost use Rattle.std.proofs.Common.{rules};
ghost use Rattle.scripts.specs.Forms.{plain_policy};
ghost use Rattle.scripts.specs.PlainPolicies.{admits_of};

use crate::bad::Bad;
use meaning::{Limit, Totals};
use policy::{Ceiling, Floor, Open, Policy};

#[derive(Clone, Copy)]
pub enum PlainPolicy {
    Open,
    Floor,
    Ceiling,
}

pub fn plain_policy(number: u8) -> Result<PlainPolicy, Bad>
    ensures { result ≡ plain_policy number }
{
    match number {
        0 => Ok(PlainPolicy::Open),
        1 => Ok(PlainPolicy::Floor),
        2 => Ok(PlainPolicy::Ceiling),
        _ => Err(Bad::Policy),
    }
}

impl Policy for PlainPolicy {
    ghost admits = { admits_of };

    ghost lawful = { Prim.search rules };

    fn admits(&self, class: u8, limit: Limit, totals: &Totals) -> bool {
        match self {
            PlainPolicy::Open => Open.admits(class, limit, totals),
            PlainPolicy::Floor => Floor.admits(class, limit, totals),
            PlainPolicy::Ceiling => Ceiling.admits(class, limit, totals),
        }
    }
}
