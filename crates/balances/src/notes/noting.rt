// Legs are noted, and handed back to be put back.
ghost use Rattle.std.specs.Prelude.{◌≡◌, ◌<◌, ◌++◌, [], true, length, cond, is_ok, is_some, nat_le, map, if◌then◌else◌, IfNone};
ghost use Rattle.std.specs.Option.{option_to_list};
ghost use Rattle.std.specs.Result.{result_err};
ghost use Rattle.meaning.specs.Limits.{most_legs};
ghost use Rattle.ordered.specs.Items.{items};
ghost use Rattle.balances.specs.Judged.{full_judged};
ghost use Rattle.balances.specs.Noted.{noted, trace_of, trace_in, no_legs, with_leg};

use super::{Leg, Notes, Undo};
use crate::plain::opening::{NO_DUE, NO_RESERVATION, no_account};
use crate::receipt::{NO_RECORD, Receipt};
use meaning::limits::{LEGS, RESERVATIONS};
use meaning::{Record, Refusal};
use ordered::{CopyRow, Due};

// Not inlined, so that the places are filled where they stay, as those of accounts are.
#[inline(never)]
fn none_noted() -> CopyRow<Leg, LEGS>
    ensures { items result ≡ [] }
{
    CopyRow::new(Leg {
        undo: Undo {
            debit: 0,
            debit_was: no_account(),
            credit: 0,
            credit_was: no_account(),
            slot: 0,
            slot_was: NO_RESERVATION,
            reserved_was: 0,
            highest_was: 0,
        },
        fields: NO_RECORD,
    })
}

impl Notes {
    // No legs, beside an empty queue.
    pub(crate) fn new() -> Notes
        ensures { noted result ≡ no_legs [] }
    {
        Notes {
            legs: none_noted(),
            queue: CopyRow::new(NO_DUE),
        }
    }

    // Begins anew: no legs so far, and the queue as it is.
    pub(crate) fn begin(&mut self, queue: &CopyRow<Due, RESERVATIONS>)
        ensures { noted self.new ≡ no_legs (items queue.now) }
    {
        self.legs.truncate(0);
        self.queue.copy_from(queue);
    }

    // Room for one leg more.
    pub(crate) fn check_legs(&self) -> Result<(), Refusal>
        ensures answer { result_err result ≡ full_judged (noted self.now) }
        ensures room { is_ok result ≡ true → length (noted self.now).traces < most_legs }
    {
        if self.legs.is_full() {
            return Err(Refusal::ChainTooLong);
        }
        Ok(())
    }

    // How many legs there are.
    pub(crate) fn count(&self) -> usize
        ensures { result ≡ length (noted self.now).traces }
    {
        self.legs.len()
    }

    // Notes a leg, where there is room for one more.
    pub(crate) fn note(&mut self, undo: Undo, fields: Record)
        ensures { noted self.new ≡ with_leg (trace_of undo) fields (noted self.old) }
    {
        self.legs.push(Leg { undo, fields });
    }

    // Takes back what was noted last.
    pub(crate) fn take_last(&mut self) -> Option<Leg>
        ensures traces { (noted self.old).traces
            ≡ (noted self.new).traces ++ map trace_in (option_to_list result) }
        ensures none { IfNone result ((noted self.old).traces ≡ []) }
        ensures queue { (noted self.new).queue ≡ (noted self.old).queue }
    {
        self.legs.pop()
    }

    // The receipt of the legs, if it has room for them; and then they are forgotten.
    #[inline(always)]
    pub(crate) fn settle<const N: usize>(&mut self) -> Option<Receipt<N>>
        ensures receipt { result
            ≡ cond (nat_le (length (noted self.old).traces) N) (Some (noted self.old).records) None }
        ensures forgotten { noted self.new
            ≡ (if is_some result then no_legs (noted self.old).queue else noted self.old) }
    {
        let receipt = Receipt::of(self.legs.as_slice())?;
        self.legs.truncate(0);
        Some(receipt)
    }

    // The queue as it was.
    pub(crate) fn queue(&self) -> &CopyRow<Due, RESERVATIONS>
        ensures { items result.now ≡ (noted self.now).queue }
    {
        &self.queue
    }
}
