// The legs of a chain. The policy is asked between its calls, never by it: the outlook hands out what two accounts
// would show.
ghost use Rattle.std.specs.Prelude.{◌≡◌, ◌+◌, is_ok, IfOk, if◌then◌else◌};
ghost use Rattle.std.specs.Option.{option_map, option_or};
ghost use Rattle.std.specs.Result.{result_err};
ghost use Rattle.meaning.specs.Rows.{debited, credited};
ghost use Rattle.balances.specs.Outlooks.{Shows};
ghost use Rattle.meaning.specs.declared.content.Content.TheVariants.{Transfer, Reserve, Post, Void};
ghost use Rattle.meaning.specs.declared.fate.Event.TheVariants.{Post as posts, Void as voids};
ghost use Rattle.balances.specs.Books.{books_of, held_place, row_asked};
ghost use Rattle.balances.specs.Judged.{full_judged, reserve_judged, movement_judged, post_judged, void_judged, sum};
ghost use Rattle.balances.specs.Legs.{transferred, reserved, closed};
ghost use Rattle.balances.specs.Chains.{GoesOn, Writes, leg_of};
ghost use Rattle.balances.specs.Undone.{noted_of};

use super::Chain;
use crate::outlook::{Movement, Outlook};
use crate::plain::judging::{check_amount, check_pair};
use meaning::{Content, Event, Record, Refusal, Reservation};

impl Chain<'_> {
    // The two accounts of a movement as they stand, or the first rule of the tables that it breaks. This and the next are
    // inlined, since two accounts are wide.
    #[inline(always)]
    fn parties(&self, movement: &Movement) -> Result<Outlook, Refusal>
        ensures answer { result_err result ≡ movement_judged movement.now.number movement.now.debit movement.now.credit (sum movement.now.pending movement.now.posted) (books_of self.now.balances.now) }
        ensures shown { IfOk result (λ o. Shows o (row_asked (books_of self.now.balances.now) movement.now.debit) (row_asked (books_of self.now.balances.now) movement.now.credit)) }
    {
        let amount = movement.pending.saturating_add(movement.posted);
        let tables = &self.balances.tables;
        tables.check_number(movement.number)?;
        check_amount(amount)?;
        let debit = tables.account(movement.debit).ok_or(Refusal::DebitUnknown)?;
        let credit = tables
            .account(movement.credit)
            .ok_or(Refusal::CreditUnknown)?;
        check_pair(&debit, &credit, amount)?;
        Ok(Outlook { debit, credit })
    }

    // What the two accounts would show after a movement, or the first rule of the tables that stands against it.
    #[inline(always)]
    pub fn outlook(&self, movement: &Movement) -> Result<Outlook, Refusal>
        ensures answer { result_err result ≡ movement_judged movement.now.number movement.now.debit movement.now.credit (sum movement.now.pending movement.now.posted) (books_of self.now.balances.now) }
        ensures shown { IfOk result (λ o. Shows o (option_map (debited movement.now.pending movement.now.posted) (row_asked (books_of self.now.balances.now) movement.now.debit)) (option_map (credited movement.now.pending movement.now.posted) (row_asked (books_of self.now.balances.now) movement.now.credit))) }
    {
        let mut outlook = self.parties(movement)?;
        outlook.debit.debit(movement.pending, movement.posted);
        outlook.credit.credit(movement.pending, movement.posted);
        Ok(outlook)
    }

    // What a leg writes into a journal.
    fn record(&self, number: u32, linked: bool, content: Content) -> Record
        ensures { result ≡ leg_of self.now number linked content }
    {
        Record {
            number,
            linked,
            moment: self.moment,
            content,
        }
    }

    // Takes a transfer. What a leg leaves of a chain (`GoesOn`) relates two states, so no type can say it; the fields
    // of an order are taken apart where its kind is known, and each contract names them.
    pub fn transfer(
        &mut self,
        number: u32,
        linked: bool,
        debit: u32,
        credit: u32,
        amount: u64,
    ) -> Result<(), Refusal>
        ensures goes_on { GoesOn self.old (is_ok result) self.new }
        ensures written { Writes self.old (is_ok result)
            (leg_of self.old number linked (Transfer debit credit amount)) self.new }
        ensures answer { result_err result ≡ full_judged (noted_of self.old.balances.now) }
        ensures books { books_of self.new.balances.now ≡ (if is_ok result then transferred number debit credit amount (books_of self.old.balances.now) else books_of self.old.balances.now) }
    {
        let content = Content::Transfer {
            debit,
            credit,
            amount,
        };
        let fields = self.record(number, linked, content);
        let balances = &mut *self.balances;
        balances.notes.check_legs()?;
        balances.transfer(fields, debit, credit, amount);
        Ok(())
    }

    // Takes a reserve, where there is room for one reservation more.
    pub fn reserve(&mut self, linked: bool, held: Reservation) -> Result<(), Refusal>
        ensures goes_on { GoesOn self.old (is_ok result) self.new }
        ensures written { Writes self.old (is_ok result)
            (leg_of self.old held.number linked (Reserve held.debit held.credit held.amount held.deadline))
            self.new }
        ensures answer { result_err result ≡ reserve_judged (noted_of self.old.balances.now) (books_of self.old.balances.now) }
        ensures books { books_of self.new.balances.now ≡ (if is_ok result then reserved held (books_of self.old.balances.now) else books_of self.old.balances.now) }
    {
        let content = Content::Reserve {
            debit: held.debit,
            credit: held.credit,
            amount: held.amount,
            until: held.deadline,
        };
        let fields = self.record(held.number, linked, content);
        let balances = &mut *self.balances;
        balances.notes.check_legs()?;
        balances.tables.check_room()?;
        balances.reserve(fields, held);
        Ok(())
    }

    // Takes a post of a part of a live reservation.
    pub fn post(
        &mut self,
        number: u32,
        linked: bool,
        reservation: u32,
        amount: u64,
    ) -> Result<(), Refusal>
        ensures goes_on { GoesOn self.old (is_ok result) self.new }
        ensures written { Writes self.old (is_ok result)
            (leg_of self.old number linked (Post reservation amount)) self.new }
        ensures answer { result_err result ≡ option_or (post_judged number reservation amount (books_of self.old.balances.now)) (full_judged (noted_of self.old.balances.now)) }
        ensures books { books_of self.new.balances.now ≡ (if is_ok result then closed posts number (held_place (books_of self.old.balances.now) reservation) amount (books_of self.old.balances.now) else books_of self.old.balances.now) }
    {
        let content = Content::Post {
            reservation,
            amount,
        };
        let fields = self.record(number, linked, content);
        let balances = &mut *self.balances;
        let slot = balances.tables.check_post(number, reservation, amount)?;
        balances.notes.check_legs()?;
        balances.close(fields, slot, Event::Post, amount);
        Ok(())
    }

    // Takes a void of a live reservation.
    pub fn void(&mut self, number: u32, linked: bool, reservation: u32) -> Result<(), Refusal>
        ensures goes_on { GoesOn self.old (is_ok result) self.new }
        ensures written { Writes self.old (is_ok result)
            (leg_of self.old number linked (Void reservation)) self.new }
        ensures answer { result_err result ≡ option_or (void_judged number reservation (books_of self.old.balances.now)) (full_judged (noted_of self.old.balances.now)) }
        ensures books { books_of self.new.balances.now ≡ (if is_ok result then closed voids number (held_place (books_of self.old.balances.now) reservation) 0 (books_of self.old.balances.now) else books_of self.old.balances.now) }
    {
        let fields = self.record(number, linked, Content::Void { reservation });
        let balances = &mut *self.balances;
        let (slot, _) = balances.tables.check_void(number, reservation)?;
        balances.notes.check_legs()?;
        balances.close(fields, slot, Event::Void, 0);
        Ok(())
    }
}
