// What a book asks of its tables.
ghost use Rattle.std.specs.Prelude.{◌≡◌, length};
ghost use Rattle.std.specs.Option.{option_map};
ghost use Rattle.meaning.specs.Rows.{standing_of};
ghost use Rattle.balances.specs.Books.{books_of, empty, row_asked, held_asked, opened_with};
ghost use Rattle.balances.specs.Lapses.{next_due, lapsed_if, number_in, deadline_in};
ghost use Rattle.balances.specs.Queues.{first, due_count, line_at};

use super::Balances;
use crate::notes::Notes;
use crate::plain::Tables;
use meaning::{Account, Reservation};
use ordered::Line;

// The tables' own functions under the names by which others ask: no one else can name the tables.
impl Balances {
    // No accounts, no reservations, no order taken.
    #[inline(always)]
    pub fn new() -> Balances
        ensures { books_of result ≡ empty }
    {
        Balances {
            tables: Tables::new(),
            notes: Notes::new(),
        }
    }

    // Forgets all that they hold.
    pub fn clear(&mut self)
        ensures { books_of self.new ≡ empty }
    {
        self.tables.clear();
    }

    // One account more, where there is room.
    pub fn open(&mut self, account: Account)
        ensures { books_of self.new ≡ opened_with (standing_of account) (books_of self.old) }
    {
        self.tables.open(account);
    }

    // The account of a number.
    pub fn account(&self, number: u32) -> Option<Account>
        ensures { option_map standing_of result ≡ row_asked (books_of self.now) number }
    {
        self.tables.account(number)
    }

    // The reservation of a number, with its fate.
    pub fn reservation(&self, number: u32) -> Option<Reservation>
        ensures { result ≡ held_asked (books_of self.now) number }
    {
        self.tables.reservation(number)
    }

    // How many accounts there are.
    pub fn opened(&self) -> usize
        ensures { result ≡ length (books_of self.now).rows }
    {
        self.tables.opened()
    }

    // The key at a place of the listing.
    pub fn line_at(&self, place: usize) -> Option<Line>
        ensures { result ≡ line_at place (books_of self.now).lines }
    {
        self.tables.line_at(place)
    }

    // Lets the reservation lapse that falls due first, if its deadline has come; its number.
    pub fn lapse_next(&mut self, moment: u64) -> Option<u32>
        ensures number { result ≡ number_in (next_due moment (books_of self.old)) }
        ensures books { books_of self.new ≡ lapsed_if (next_due moment (books_of self.old)) (books_of self.old) }
    {
        self.tables.lapse_next(moment)
    }

    // How many reservations fall due by the moment.
    pub fn count_due(&self, moment: u64) -> usize
        ensures { result ≡ due_count moment (books_of self.now).queue }
    {
        self.tables.count_due(moment)
    }

    // The earliest live deadline, or 0, as a move answers it.
    pub fn next_deadline(&self) -> u64
        ensures { result ≡ deadline_in (first (books_of self.now).queue) }
    {
        self.tables.next_deadline()
    }
}
