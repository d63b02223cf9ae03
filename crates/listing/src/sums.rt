// The sums of a ledger's accounts.
ghost use Rattle.std.specs.Prelude.{◌≡◌};
ghost use Rattle.meaning.specs.Rows.{standing_of};
ghost use Rattle.balances.specs.Books.{books_of};
ghost use Rattle.listing.specs.Sums.{no_sums, plus, plus_key, sums_of};

use crate::keys::Keys;
use balances::Balances;
use meaning::Account;
use ordered::Line;

// Sums may pass the top of a side, so these are no `Totals`.
#[derive(Clone, Copy, Default)]
pub(crate) struct Sums {
    pub accounts: u64,
    pub debits_pending: u64,
    pub debits_posted: u64,
    pub credits_pending: u64,
    pub credits_posted: u64,
}

impl Sums {
    // One account more.
    fn add(&mut self, account: &Account)
        ensures { self.new ≡ plus (standing_of account.now) self.old }
    {
        let totals = &account.totals;
        self.accounts = self.accounts.saturating_add(1);
        self.debits_pending = self.debits_pending.saturating_add(totals.debits.pending);
        self.debits_posted = self.debits_posted.saturating_add(totals.debits.posted);
        self.credits_pending = self.credits_pending.saturating_add(totals.credits.pending);
        self.credits_posted = self.credits_posted.saturating_add(totals.credits.posted);
    }

    // The account of a key more, if it is of the ledger.
    fn add_key(&mut self, balances: &Balances, ledger: u16, key: &Line)
        ensures { self.new ≡ plus_key (books_of balances.now) ledger key.now self.old }
    {
        if key.ledger == ledger {
            if let Some(account) = balances.account(key.number) {
                self.add(&account);
            }
        }
    }
}

// The sums of a ledger's accounts.
#[tactic(auto, unfolding(crate::specs::Sums::sums_of))]
pub(crate) fn sum_ledger(balances: &Balances, ledger: u16) -> Sums
    ensures { result ≡ sums_of (books_of balances.now) ledger }
{
    let mut sums = Sums::default();
    for key in Keys::new(balances) {
        sums.add_key(balances, ledger, &key);
    }
    sums
}
