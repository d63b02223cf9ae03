// Water that was set aside, and what became of it.
ghost use Rattle.std.specs.Prelude.{◌≡◌, ◌&&◌};
ghost use Rattle.meaning.specs.Given.{due, is_live};
ghost use Rattle.meaning.specs.Rows.{met};

use crate::fate::{Event, Fate};

#[derive(Clone, Copy)]
pub struct Reservation {
    pub number: u32,
    pub debit: u32,
    pub credit: u32,
    // Here it takes no room of its own.
    pub fate: Fate,
    pub amount: u64,
    // 0 stands for no deadline, as in the rules and in a record's bytes; an `Option` would leave that 0 a second meaning.
    pub deadline: u64,
}

impl Reservation {
    // Meets an event: only a live reservation changes.
    pub fn meet(&mut self, event: Event)
        ensures { self.new ≡ met event self.old }
    {
        self.fate.meet(event);
    }

    // Live, with a deadline that has come.
    pub fn is_due(&self, moment: u64) -> bool
        ensures { result ≡ (is_live self.now.fate && due self.now.deadline moment) }
    {
        self.fate == Fate::Live && self.deadline != 0 && self.deadline <= moment
    }
}
