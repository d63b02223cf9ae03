// What legs do to the tables.
ghost use Rattle.std.specs.Prelude.{◌≡◌};
ghost use Rattle.balances.specs.Shown.{shown};
ghost use Rattle.balances.specs.Contents.{held_place};
ghost use Rattle.balances.specs.Legs.{due_of, moved, released, with_held, without_due, ended, transferred, reserved, closed, lapsed};

use super::Tables;
use meaning::{Event, Reservation};
use ordered::Due;

// The key of a reservation in the queue. Asked for in two places here, and named like its definition.
fn due_of(held: &Reservation) -> Due
    ensures { result ≡ due_of held.now }
{
    Due {
        deadline: held.deadline,
        number: held.number,
    }
}

impl Tables {
    // More pending and posted, from one account to another.
    fn move_between(&mut self, debit: u32, credit: u32, pending: u64, posted: u64)
        ensures { shown self.new ≡ moved debit credit pending posted (shown self.old) }
    {
        let from = self.account_place(debit);
        let to = self.account_place(credit);
        self.accounts
            .change(from, |account| account.debit(pending, posted));
        self.accounts
            .change(to, |account| account.credit(pending, posted));
    }

    // An amount leaves what is pending between two accounts, and a part of it is posted. One function with two closures
    // would say no less than this one and `move_between`.
    fn release_between(&mut self, debit: u32, credit: u32, amount: u64, part: u64)
        ensures { shown self.new ≡ released debit credit amount part (shown self.old) }
    {
        let from = self.account_place(debit);
        let to = self.account_place(credit);
        self.accounts
            .change(from, |account| account.release_debit(amount, part));
        self.accounts
            .change(to, |account| account.release_credit(amount, part));
    }

    // One reservation more, and its deadline in the queue.
    fn hold(&mut self, held: Reservation)
        ensures { shown self.new ≡ with_held held (shown self.old) }
    {
        if !self.reservations.is_full() {
            self.reservations.push(held);
            if held.deadline != 0 {
                self.queue.put(due_of(&held));
            }
        }
    }

    // The reservation at a place ends: its amount leaves what is pending, and a part of it is posted.
    fn end_at(&mut self, slot: usize, event: Event, part: u64)
        ensures { shown self.new ≡ ended event slot part (shown self.old) }
    {
        let held = self.reservation_at(slot);
        self.release_between(held.debit, held.credit, held.amount, part);
        self.reservations.change(slot, |held| held.meet(event));
    }

    // A key leaves the queue.
    fn leave(&mut self, key: Due)
        ensures { shown self.new ≡ without_due key (shown self.old) }
    {
        self.queue.take_out(key);
    }

    // The reservation of a key lapses.
    pub(super) fn lapse(&mut self, key: Due)
        ensures { shown self.new ≡ lapsed key (shown self.old) }
    {
        let slot = self.reservation_place(key.number);
        self.end_at(slot, Event::Lapse, 0);
        self.leave(key);
    }

    // Moves an amount for good.
    pub(crate) fn transfer(&mut self, number: u32, debit: u32, credit: u32, amount: u64)
        ensures { shown self.new ≡ transferred number debit credit amount (shown self.old) }
    {
        self.move_between(debit, credit, 0, amount);
        self.highest = number;
    }

    // Sets an amount aside.
    pub(crate) fn reserve(&mut self, held: Reservation)
        ensures { shown self.new ≡ reserved held (shown self.old) }
    {
        self.move_between(held.debit, held.credit, held.amount, 0);
        self.hold(held);
        self.highest = held.number;
    }

    // Ends the reservation at a place, and posts a part of it.
    pub(crate) fn close(&mut self, number: u32, slot: usize, event: Event, part: u64)
        ensures { shown self.new ≡ closed event number slot part (shown self.old) }
    {
        let held = self.reservation_at(slot);
        self.end_at(slot, event, part);
        self.leave(due_of(&held));
        self.highest = number;
    }
}
