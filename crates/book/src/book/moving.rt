// Moving the book's moment on.
ghost use Rattle.book.specs.Called.{MovedTo};

use super::Book;
use journal::Journal;
use meaning::{Moved, Refusal};
use moves::move_on;
use policy::Policy;

impl<J: Journal, P: Policy> Book<J, P> {
    // Moves to a moment: what falls due lapses, by deadline and then number, into the list's first places.
    pub fn move_to(&mut self, moment: u64, lapses: &mut [u32]) -> Result<Moved, Refusal>
        ensures { MovedTo J.Journal P.Policy self.old moment lapses.old result lapses.new self.new }
    {
        self.require_read()?;
        let moved = move_on(&mut self.balances, self.moment, moment, lapses)?;
        self.moment = moment;
        Ok(moved)
    }
}
