// What the calls on a book answer, beside a refusal.
ghost use Rattle.std.specs.Prelude.{◌≡◌};
ghost use Rattle.meaning.specs.Numbers.{answer_of};

use crate::refusal::Refusal;

// What an order of a batch is answered.
pub type Answer = Result<(), Refusal>;

// Where one of several in a row was refused, its place counted from 0, and why.
#[derive(Clone, Copy, Debug, PartialEq, Eq)]
pub struct Stop {
    pub place: u64,
    pub refusal: Refusal,
}

// How the reading of a journal ended: it went through, or stopped at an entry.
pub type Reading = Result<(), Stop>;

// What a move did: how many reservations lapsed, and the earliest live deadline, or 0.
// The rules have that 0; an `Option` would have a second word for it, a deadline of 0.
#[derive(Clone, Copy, Debug, PartialEq, Eq)]
pub struct Moved {
    pub lapsed: u64,
    pub next_deadline: u64,
}

// The number that stands for an answer: 0 where it is taken, else the refusal's.
pub fn number_of<T>(answer: &Result<T, Refusal>) -> u8
    ensures { result ≡ answer_of answer.now }
{
    match answer {
        Ok(_) => 0,
        Err(refusal) => refusal.number(),
    }
}
