// Legs are noted as they are taken, and put back together.
ghost use Rattle.std.specs.Prelude.{◌≡◌, ◌+◌, ◌<◌, [], ◌∷◌, ◌++◌, is_some};
ghost use Rattle.meaning.specs.Limits.{most_legs};
ghost use Rattle.balances.specs.Books.{books_of};
ghost use Rattle.balances.specs.Legs.{transferred, reserved, closed};
ghost use Rattle.balances.specs.Undone.{legs_of, written_of, written_within, rolled_back, kept_or_back};

use super::Balances;
use crate::receipt::Receipt;
use meaning::{Event, Record, Reservation};

impl Balances {
    // Begins to note legs: none so far, and the queue as it is.
    pub(crate) fn begin(&mut self)
        ensures books { books_of self.new ≡ books_of self.old }
        ensures back { rolled_back self.new ≡ books_of self.old }
        ensures legs { legs_of self.new ≡ 0 }
        ensures written { written_of self.new ≡ [] }
    {
        let queue = self.tables.queue();
        self.notes.begin(queue);
    }

    // Moves an amount for good, by a leg of this record. Of this and the next two: what a leg notes depends on the room before
    // it, so no type can say it.
    pub(crate) fn transfer(&mut self, fields: Record, debit: u32, credit: u32, amount: u64)
        ensures books { books_of self.new ≡ transferred fields.number debit credit amount (books_of self.old) }
        ensures back { legs_of self.old < most_legs → rolled_back self.new ≡ rolled_back self.old }
        ensures legs { legs_of self.old < most_legs → legs_of self.new ≡ legs_of self.old + 1 }
        ensures written { legs_of self.old < most_legs
            → written_of self.new ≡ written_of self.old ++ (fields ∷ []) }
    {
        let no_slot = self.tables.reserved();
        let tables = &self.tables;
        self.notes
            .note(tables.trace(debit, credit, no_slot), fields);
        self.tables.transfer(fields.number, debit, credit, amount);
    }

    // Sets an amount aside.
    pub(crate) fn reserve(&mut self, fields: Record, held: Reservation)
        ensures books { books_of self.new ≡ reserved held (books_of self.old) }
        ensures back { legs_of self.old < most_legs → rolled_back self.new ≡ rolled_back self.old }
        ensures legs { legs_of self.old < most_legs → legs_of self.new ≡ legs_of self.old + 1 }
        ensures written { legs_of self.old < most_legs
            → written_of self.new ≡ written_of self.old ++ (fields ∷ []) }
    {
        let slot = self.tables.reserved();
        let tables = &self.tables;
        self.notes
            .note(tables.trace(held.debit, held.credit, slot), fields);
        self.tables.reserve(held);
    }

    // Ends the reservation at a place, and posts a part of it.
    pub(crate) fn close(&mut self, fields: Record, slot: usize, event: Event, part: u64)
        ensures books { books_of self.new ≡ closed event fields.number slot part (books_of self.old) }
        ensures back { legs_of self.old < most_legs → rolled_back self.new ≡ rolled_back self.old }
        ensures legs { legs_of self.old < most_legs → legs_of self.new ≡ legs_of self.old + 1 }
        ensures written { legs_of self.old < most_legs
            → written_of self.new ≡ written_of self.old ++ (fields ∷ []) }
    {
        let held = self.tables.reservation_at(slot);
        let tables = &self.tables;
        self.notes
            .note(tables.trace(held.debit, held.credit, slot), fields);
        self.tables.close(fields.number, slot, event, part);
    }

    // Puts the legs back, the latest first, and the queue as it was.
    pub(crate) fn unwind(&mut self)
        ensures { books_of self.new ≡ rolled_back self.old }
    {
        while let Some(leg) = self.notes.take_last() {
            self.tables.put_back(&leg.undo);
        }
        let queue = self.notes.queue();
        self.tables.put_queue(queue);
    }

    // The receipt of the legs, if it has room for them; if not, they are put back.
    #[inline(always)]
    pub(crate) fn settle<const N: usize>(&mut self) -> Option<Receipt<N>>
        ensures receipt { result ≡ written_within N self.old }
        ensures books { books_of self.new ≡ kept_or_back (is_some result) self.old }
    {
        let receipt = self.notes.settle();
        if receipt.is_none() {
            self.unwind();
        }
        receipt
    }
}
