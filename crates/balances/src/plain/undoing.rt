// What legs write over, and how it is put back.
ghost use Rattle.std.specs.Prelude.{◌≡◌};
ghost use Rattle.ordered.specs.Items.{items};
ghost use Rattle.balances.specs.Shown.{shown};
ghost use Rattle.balances.specs.Legs.{tracing};
ghost use Rattle.balances.specs.Noted.{trace_of};
ghost use Rattle.balances.specs.Undone.{undone, with_queue};

use super::Tables;
use crate::notes::Undo;
use meaning::limits::RESERVATIONS;
use ordered::{CopyRow, Due};

impl Tables {
    // What a leg between two accounts, and on the reservation at a place, may write over. That is wide, so it is inlined.
    #[inline(always)]
    pub(crate) fn trace(&self, debit: u32, credit: u32, slot: usize) -> Undo
        ensures { trace_of result ≡ tracing debit credit slot (shown self.now) }
    {
        let debit = self.account_place(debit);
        let credit = self.account_place(credit);
        Undo {
            debit,
            debit_was: self.account_at(debit),
            credit,
            credit_was: self.account_at(credit),
            slot,
            slot_was: self.reservation_at(slot),
            reserved_was: self.reservations.len(),
            highest_was: self.highest,
        }
    }

    // Puts one leg back.
    pub(crate) fn put_back(&mut self, undo: &Undo)
        ensures { shown self.new ≡ undone (trace_of undo.now) (shown self.old) }
    {
        self.accounts.set(undo.credit, undo.credit_was);
        self.accounts.set(undo.debit, undo.debit_was);
        self.reservations.set(undo.slot, undo.slot_was);
        self.reservations.truncate(undo.reserved_was);
        self.highest = undo.highest_was;
    }

    // The queue.
    pub(crate) fn queue(&self) -> &CopyRow<Due, RESERVATIONS>
        ensures { items result.now ≡ (shown self.now).queue }
    {
        &self.queue
    }

    // Another queue in its place.
    pub(crate) fn put_queue(&mut self, queue: &CopyRow<Due, RESERVATIONS>)
        ensures { shown self.new ≡ with_queue (items queue.now) (shown self.old) }
    {
        self.queue.copy_from(queue);
    }
}
