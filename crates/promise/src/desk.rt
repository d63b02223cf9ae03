// The lists that a caller has for its calls: what it is told, answers, lapses and bytes.
ghost use Rattle.std.specs.Prelude.{◌≡◌, slice_set};

use crate::told::Told;
use meaning::Answer;

#[derive(Drop)]
pub struct Desk<'a> {
    pub told: &'a mut [Told],
    pub answers: &'a mut [Answer],
    pub lapses: &'a mut [u32],
    pub bytes: &'a mut [u8],
}

impl<'a> Desk<'a> {
    pub fn new(
        told: &'a mut [Told],
        answers: &'a mut [Answer],
        lapses: &'a mut [u32],
        bytes: &'a mut [u8],
    ) -> Desk<'a>
        ensures { result ≡ record { told = told.entry; answers = answers.entry; lapses = lapses.entry; bytes = bytes.entry } }
    {
        Desk {
            told,
            answers,
            lapses,
            bytes,
        }
    }
}

// Writes what is told at its place, if there is one. `get_mut` needs as many lines.
pub(crate) fn put(told: &mut [Told], at: usize, what: Told)
    ensures { told.new ≡ slice_set told.old at what }
{
    if at < told.len() {
        told[at] = what;
    }
}
