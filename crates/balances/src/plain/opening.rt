// Empty tables, and one account more.
ghost use Rattle.std.specs.Prelude.{◌≡◌, []};
ghost use Rattle.meaning.specs.Rows.{standing_of};
ghost use Rattle.ordered.specs.Items.{items};
ghost use Rattle.balances.specs.Shown.{shown};
ghost use Rattle.balances.specs.Contents.{empty, no_row, opened_with};

use super::Tables;
use meaning::limits::ACCOUNTS;
use meaning::{Account, Fate, Label, Limit, Reservation, Totals};
use ordered::{CopyRow, Due, Line};

// What stands at no place.
pub(crate) fn no_account() -> Account
    ensures { standing_of result ≡ no_row }
{
    Account {
        number: 0,
        ledger: 0,
        class: 0,
        limit: Limit::zero(),
        label: Label::unused(),
        totals: Totals::zero(),
    }
}

pub(crate) const NO_RESERVATION: Reservation = Reservation {
    number: 0,
    debit: 0,
    credit: 0,
    amount: 0,
    deadline: 0,
    fate: Fate::Live,
};

pub(crate) const NO_DUE: Due = Due {
    deadline: 0,
    number: 0,
};

const NO_LINE: Line = Line {
    ledger: 0,
    label: 0,
    number: 0,
};

// Tables are filled where they stay, and not copied, if a row whose blank is not all zeros is made by a function that is not
// inlined.
#[inline(never)]
fn no_accounts() -> CopyRow<Account, ACCOUNTS>
    ensures { items result ≡ [] }
{
    CopyRow::new(no_account())
}

impl Tables {
    // No accounts, no reservations, no order taken.
    pub(crate) fn new() -> Tables
        ensures { shown result ≡ empty }
    {
        Tables {
            accounts: no_accounts(),
            reservations: CopyRow::new(NO_RESERVATION),
            queue: CopyRow::new(NO_DUE),
            lines: CopyRow::new(NO_LINE),
            highest: 0,
        }
    }

    // Forgets all that they hold.
    pub(crate) fn clear(&mut self)
        ensures { shown self.new ≡ empty }
    {
        self.accounts.truncate(0);
        self.reservations.truncate(0);
        self.highest = 0;
        self.queue.truncate(0);
        self.lines.truncate(0);
    }

    // One account more, and its line, where there is room.
    pub(crate) fn open(&mut self, account: Account)
        ensures { shown self.new ≡ opened_with (standing_of account) (shown self.old) }
    {
        if !self.accounts.is_full() {
            self.accounts.push(account);
            self.lines.put(Line {
                ledger: account.ledger,
                label: account.label.code,
                number: account.number,
            });
        }
    }
}
