// Which legs the tables refuse.
ghost use Rattle.std.specs.Prelude.{◌≡◌, IfOk};
ghost use Rattle.std.specs.Result.{result_err};
ghost use Rattle.balances.specs.Shown.{shown};
ghost use Rattle.balances.specs.Contents.{held_place, held_asked};
ghost use Rattle.meaning.specs.Rows.{standing_of};
ghost use Rattle.meaning.specs.Rules.{amount_refused, fate_refused, part_refused};
ghost use Rattle.balances.specs.Judged.{number_judged, pair_judged, room_judged, void_judged, post_judged};

use super::Tables;
use meaning::limits::TOP;
use meaning::{Account, Fate, Refusal, Reservation};

// An amount from 1 to the top.
pub(crate) fn check_amount(amount: u64) -> Result<(), Refusal>
    ensures { result_err result ≡ amount_refused amount }
{
    if amount == 0 || amount > TOP {
        return Err(Refusal::Amount);
    }
    Ok(())
}

// So much more between two accounts.
pub(crate) fn check_pair(debit: &Account, credit: &Account, amount: u64) -> Result<(), Refusal>
    ensures { result_err result ≡ pair_judged amount (standing_of debit.now) (standing_of credit.now) }
{
    if debit.number == credit.number {
        return Err(Refusal::SameAccount);
    }
    if debit.ledger != credit.ledger {
        return Err(Refusal::LedgersDiffer);
    }
    if !debit.totals.debits.takes(amount) || !credit.totals.credits.takes(amount) {
        return Err(Refusal::TopPassed);
    }
    Ok(())
}

// Only a live reservation may be closed.
pub(crate) fn check_fate(fate: Fate) -> Result<(), Refusal>
    ensures { result_err result ≡ fate_refused fate }
{
    match fate {
        Fate::Live => Ok(()),
        Fate::Posted => Err(Refusal::AlreadyPosted),
        Fate::Voided => Err(Refusal::AlreadyVoided),
        Fate::Lapsed => Err(Refusal::AlreadyLapsed),
    }
}

// A part of what is reserved.
pub(crate) fn check_part(reserved: u64, amount: u64) -> Result<(), Refusal>
    ensures { result_err result ≡ part_refused amount reserved }
{
    if amount == 0 || amount > reserved {
        return Err(Refusal::PostAmount);
    }
    Ok(())
}

impl Tables {
    // Numbers rise.
    pub(crate) fn check_number(&self, number: u32) -> Result<(), Refusal>
        ensures { result_err result ≡ number_judged number (shown self.now) }
    {
        if number == 0 || number <= self.highest {
            return Err(Refusal::OrderNumber);
        }
        Ok(())
    }

    // Room for one reservation more.
    pub(crate) fn check_room(&self) -> Result<(), Refusal>
        ensures { result_err result ≡ room_judged (shown self.now) }
    {
        if self.reservations.is_full() {
            return Err(Refusal::ReservationsFull);
        }
        Ok(())
    }

    // The place of a reservation that may be closed, and what stands there. Who closes it need not look for it again.
    pub(crate) fn check_void(
        &self,
        number: u32,
        reservation: u32,
    ) -> Result<(usize, Reservation), Refusal>
        ensures answer { result_err result ≡ void_judged number reservation (shown self.now) }
        ensures place { IfOk result (λ f. f.0 ≡ held_place (shown self.now) reservation) }
        ensures found { IfOk result (λ f. held_asked (shown self.now) reservation ≡ Some f.1) }
    {
        self.check_number(number)?;
        let slot = self.reservation_place(reservation);
        let held = self
            .reservations
            .get(slot)
            .ok_or(Refusal::ReservationUnknown)?;
        check_fate(held.fate)?;
        Ok((slot, held))
    }

    // The same by a post of so much.
    pub(crate) fn check_post(
        &self,
        number: u32,
        reservation: u32,
        amount: u64,
    ) -> Result<usize, Refusal>
        ensures answer { result_err result ≡ post_judged number reservation amount (shown self.now) }
        ensures place { IfOk result (λ slot. slot ≡ held_place (shown self.now) reservation) }
    {
        let (slot, held) = self.check_void(number, reservation)?;
        check_part(held.amount, amount)?;
        Ok(slot)
    }
}
