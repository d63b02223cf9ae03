// One side of an account, debits or credits: what is pending and what is posted.
ghost use Rattle.std.specs.Prelude.{◌≡◌, ℕ, ◌+◌, ◌-◌, ◌^◌, ◌<◌, min};
ghost use Rattle.meaning.specs.Basics.{at};
ghost use Rattle.meaning.specs.Sound.{fits};

use crate::limits::TOP;

#[derive(Clone, Copy)]
pub struct Side {
    pub pending: u64,
    pub posted: u64,
    ghost fits: { pending + posted < 2 ^ 56 },
}

impl Side {
    // A `Default` by hand would say no more than this name.
    pub fn zero() -> Side
        ensures pending { result.pending ≡ 0 }
        ensures posted { result.posted ≡ 0 }
    {
        Side {
            pending: 0,
            posted: 0,
        }
    }

    // Whether the side stays within the top with so much more.
    pub fn takes(&self, amount: u64) -> bool
        ensures { result ≡ fits self.now.pending self.now.posted amount }
    {
        amount <= TOP - (self.pending + self.posted)
    }

    // Adds to what is pending and to what is posted, where the side takes both. A struct of these two numbers would be
    // named again at each call, and say no more than their names.
    pub fn add(&mut self, pending: u64, posted: u64)
        ensures pending { self.new.pending ≡ self.old.pending + at (fits self.old.pending self.old.posted (pending + posted)) pending }
        ensures posted { self.new.posted ≡ self.old.posted + at (fits self.old.pending self.old.posted (pending + posted)) posted }
    {
        if self.takes(pending.saturating_add(posted)) {
            self.pending += pending;
            self.posted += posted;
        }
    }

    // Takes an amount out of what is pending and posts a part of it; never more than is there.
    pub fn release(&mut self, amount: u64, part: u64)
        ensures pending { self.new.pending ≡ self.old.pending - amount }
        ensures posted { self.new.posted ≡ self.old.posted + min part (min amount self.old.pending) }
    {
        let freed = amount.min(self.pending);
        self.pending -= freed;
        self.posted += part.min(freed);
    }
}
