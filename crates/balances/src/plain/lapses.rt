// Reservations whose deadline has come.
ghost use Rattle.std.specs.Prelude.{◌≡◌, nat_le};
ghost use Rattle.std.specs.List.{prefix_len};
ghost use Rattle.balances.specs.Shown.{shown};
ghost use Rattle.balances.specs.Lapses.{next_due, lapsed_if, number_in, deadline_in};
ghost use Rattle.balances.specs.Queues.{first, due_count};

use super::Tables;
use ordered::Due;

impl Tables {
    // The first key of the queue.
    fn first_due(&self) -> Option<Due>
        ensures { result ≡ first (shown self.now).queue }
    {
        self.queue.as_slice().first().copied()
    }

    // The key that falls due first, if its deadline has come.
    fn next_due(&self, moment: u64) -> Option<Due>
        ensures { result ≡ next_due moment (shown self.now) }
    {
        self.first_due().filter(|key| key.deadline <= moment)
    }

    // Lets the reservation lapse that falls due first, if its deadline has come; its number.
    pub(crate) fn lapse_next(&mut self, moment: u64) -> Option<u32>
        ensures number { result ≡ number_in (next_due moment (shown self.old)) }
        ensures books { shown self.new ≡ lapsed_if (next_due moment (shown self.old)) (shown self.old) }
    {
        let key = self.next_due(moment)?;
        self.lapse(key);
        Some(key.number)
    }

    // How many reservations fall due by the moment.
    pub(crate) fn count_due(&self, moment: u64) -> usize
        ensures { result ≡ due_count moment (shown self.now).queue }
    {
        due_front(self.queue.as_slice(), moment)
    }

    // The earliest live deadline, or 0, as a move answers it.
    pub(crate) fn next_deadline(&self) -> u64
        ensures { result ≡ deadline_in (first (shown self.now).queue) }
    {
        self.first_due().map_or(0, |key| key.deadline)
    }
}

// How many at the front have a deadline that has come.
fn due_front(keys: &[Due], moment: u64) -> usize
    ensures { result ≡ prefix_len (λ key. nat_le key.deadline moment) keys.now }
{
    keys.iter().take_while(|key| key.deadline <= moment).count()
}
