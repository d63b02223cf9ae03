// How an account stands, as plain values that two books can be compared by.
ghost use Rattle.std.specs.Prelude.{◌≡◌};
ghost use Rattle.meaning.specs.Rows.{StandingOf};

use crate::account::Account;
use crate::opening::Opening;

#[derive(Clone, Copy)]
pub struct Standing {
    pub account: Opening,
    pub debits_pending: u64,
    pub debits_posted: u64,
    pub credits_pending: u64,
    pub credits_posted: u64,
}

impl From<Account> for Standing {
    ghost from_gives = { StandingOf };

    fn from(account: Account) -> Standing {
        Standing {
            account: Opening {
                number: account.number,
                ledger: account.ledger,
                class: account.class,
                limit: account.limit.litres,
                label: account.label.code,
            },
            debits_pending: account.totals.debits.pending,
            debits_posted: account.totals.debits.posted,
            credits_pending: account.totals.credits.pending,
            credits_posted: account.totals.credits.posted,
        }
    }
}
