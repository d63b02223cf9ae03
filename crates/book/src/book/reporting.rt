// The listing.
ghost use Rattle.book.specs.Called.{Reported};

use super::Book;
use journal::Journal;
use meaning::Refusal;
use policy::Policy;

impl<J: Journal, P: Policy> Book<J, P> {
    // Writes the listing into the buffer from its first byte on; the listing's length.
    pub fn report(&self, buffer: &mut [u8]) -> Result<usize, Refusal>
        ensures { Reported J.Journal P.Policy self.now buffer.old result buffer.new }
    {
        self.require_read()?;
        listing::report(&self.balances, buffer)
    }
}
