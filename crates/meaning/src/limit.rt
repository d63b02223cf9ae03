// The limit of an account, as a value that is known to be one.
ghost use Rattle.std.specs.Prelude.{◌≡◌, ◌^◌, ◌<◌, is_some, nat_le, IfSome};
ghost use Rattle.meaning.specs.Sound.{top};

use crate::limits::TOP;

/// An account's limit in litres, from 0 to the top.
#[derive(Clone, Copy, Debug, PartialEq, Eq)]
pub struct Limit {
    pub litres: u64,
    ghost within: { litres < 2 ^ 56 },
}

impl Limit {
    /// A number above the top is no limit. There is no more to say of it, so this is no `TryFrom`.
    pub fn new(litres: u64) -> Option<Limit>
        ensures within { is_some result ≡ nat_le litres top }
        ensures litres { IfSome result (λ limit. limit.litres ≡ litres) }
    {
        if litres <= TOP {
            Some(Limit { litres })
        } else {
            None
        }
    }

    /// A limit of no litres.
    pub fn zero() -> Limit
        ensures { result.litres ≡ 0 }
    {
        Limit { litres: 0 }
    }
}
