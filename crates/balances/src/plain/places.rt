// Where accounts and reservations stand, and what they show.
ghost use Rattle.std.specs.Prelude.{◌≡◌, length, slice_index_or};
ghost use Rattle.std.specs.Option.{option_map};
ghost use Rattle.meaning.specs.Rows.{standing_of};
ghost use Rattle.balances.specs.Shown.{shown};
ghost use Rattle.balances.specs.Contents.{no_row, no_reservation, row_place, held_place, row_asked, held_asked};
ghost use Rattle.balances.specs.Queues.{line_at};

use super::Tables;
use super::opening::{NO_RESERVATION, no_account};
use crate::numbered::place_of;
use meaning::{Account, Reservation};
use ordered::Line;

// A place is no `Option`: a row takes any place, and a chain notes the place past the end for none.
// Accounts and reservations keep look-ups by name: each is one line over `place_of` or a row's `get`.
impl Tables {
    // The place of an account, or how many there are.
    pub(super) fn account_place(&self, number: u32) -> usize
        ensures { result ≡ row_place (shown self.now) number }
    {
        place_of(self.accounts.as_slice(), number)
    }

    // The place of a reservation, or how many there are.
    pub(crate) fn reservation_place(&self, number: u32) -> usize
        ensures { result ≡ held_place (shown self.now) number }
    {
        place_of(self.reservations.as_slice(), number)
    }

    // The account at a place, or one that stands for none: what is noted of a leg is plain values.
    pub(super) fn account_at(&self, place: usize) -> Account
        ensures { standing_of result ≡ slice_index_or (shown self.now).rows place no_row }
    {
        self.accounts.get(place).unwrap_or(no_account())
    }

    // The reservation at a place, or one that stands for none.
    pub(crate) fn reservation_at(&self, place: usize) -> Reservation
        ensures { result ≡ slice_index_or (shown self.now).held place no_reservation }
    {
        self.reservations.get(place).unwrap_or(NO_RESERVATION)
    }

    // The account of a number.
    pub(crate) fn account(&self, number: u32) -> Option<Account>
        ensures { option_map standing_of result ≡ row_asked (shown self.now) number }
    {
        self.accounts.get(self.account_place(number))
    }

    // The reservation of a number, with its fate.
    pub(crate) fn reservation(&self, number: u32) -> Option<Reservation>
        ensures { result ≡ held_asked (shown self.now) number }
    {
        self.reservations.get(self.reservation_place(number))
    }

    // How many accounts there are.
    pub(crate) fn opened(&self) -> usize
        ensures { result ≡ length (shown self.now).rows }
    {
        self.accounts.len()
    }

    // How many reservations there are.
    pub(crate) fn reserved(&self) -> usize
        ensures { result ≡ length (shown self.now).held }
    {
        self.reservations.len()
    }

    // The key at a place of the listing.
    pub(crate) fn line_at(&self, place: usize) -> Option<Line>
        ensures { result ≡ line_at place (shown self.now).lines }
    {
        self.lines.get(place)
    }
}
