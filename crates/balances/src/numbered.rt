// Things that are known by a number, and how one is found.
ghost use Rattle.std.specs.Prelude.{◌≡◌, ℕ, ◌≤◌, ◌==◌, not, length};
ghost use Rattle.std.specs.List.{prefix_len};

use meaning::{Account, Reservation};

/// What is known by a number: accounts and reservations are.
pub trait Numbered {
    ghost number: { Self → ℕ };

    fn number(&self) -> u32
        ensures { result ≡ number self.now };
}

impl Numbered for Account {
    ghost number = { λ a. a.number };

    fn number(&self) -> u32 {
        self.number
    }
}

impl Numbered for Reservation {
    ghost number = { λ r. r.number };

    fn number(&self) -> u32 {
        self.number
    }
}

/// The first place of a number among the items, or how many they are: there a row has no item to give, so callers need
/// no second case.
pub fn place_of<T: Numbered>(items: &[T], number: u32) -> usize
    ensures place { result ≡ prefix_len (λ x. not (T.Numbered.number x == number)) items.now }
    ensures within { result ≤ length items.now }
{
    items
        .iter()
        .take_while(|item| item.number() != number)
        .count()
}
