// The lines of a listing, one for each key and one for each ledger's sums.
ghost use Rattle.std.specs.Prelude.{◌≡◌, ◌-◌, ◌^◌, min, length, take};
ghost use Rattle.meaning.specs.Rows.{standing_of};
ghost use Rattle.meaning.specs.Calls.{over};
ghost use Rattle.meaning.specs.Listing.{account_line};
ghost use Rattle.balances.specs.Books.{books_of};
ghost use Rattle.listing.specs.Pages.{with_bytes};
ghost use Rattle.listing.specs.Lines.{sum_bytes, key_bytes, keys_bytes};

use crate::keys::Keys;
use crate::page::Page;
use crate::sums::{Sums, sum_ledger};
use balances::Balances;
use meaning::Account;
use ordered::Line;

impl Page<'_> {
    // `7 MILL 2 0 250 0 900`
    #[tactic(auto, unfolding(meaning::specs::Listing::account_line))]
    fn account(&mut self, account: &Account)
        ensures { self.new ≡ with_bytes (account_line (standing_of account.now)) self.old }
    {
        let debits = &account.totals.debits;
        let credits = &account.totals.credits;
        self.line(
            account.ledger,
            &account.label.code.to_be_bytes(),
            &[
                u64::from(account.number),
                debits.pending,
                debits.posted,
                credits.pending,
                credits.posted,
            ],
        );
    }

    // `7 = 3 0 1150 0 1150`
    #[tactic(auto, unfolding(crate::specs::Lines::sum_bytes, meaning::specs::Listing::letters_in))]
    fn sums(&mut self, ledger: u16, sums: &Sums)
        ensures { self.new ≡ with_bytes (sum_bytes ledger sums.now) self.old }
    {
        self.line(
            ledger,
            b"=",
            &[
                sums.accounts,
                sums.debits_pending,
                sums.debits_posted,
                sums.credits_pending,
                sums.credits_posted,
            ],
        );
    }

    // The line of a key's account.
    fn key(&mut self, balances: &Balances, key: &Line)
        ensures { self.new ≡ with_bytes (key_bytes (books_of balances.now) key.now) self.old }
    {
        if let Some(account) = balances.account(key.number) {
            self.account(&account);
        }
    }

    // A line for each key, and a sum line where a ledger ends.
    fn keys(&mut self, balances: &Balances)
        ensures { self.new ≡ with_bytes (keys_bytes (books_of balances.now) (books_of balances.now).lines) self.old }
    {
        let mut keys = Keys::new(balances);
        // `ends` looks at the key that follows, so the keys are taken one by one.
        while let Some(key) = keys.next() {
            self.key(balances, &key);
            if keys.ends(key.ledger) {
                self.sums(key.ledger, &sum_ledger(balances, key.ledger));
            }
        }
    }
}

// Writes all lines from the first byte on, as far as there is room; their length.
pub(crate) fn put_listing(balances: &Balances, out: &mut [u8]) -> usize
    ensures length { result ≡ min (length (keys_bytes (books_of balances.now) (books_of balances.now).lines)) (2 ^ 64 - 1) }
    ensures bytes { out.new ≡ take (length out.old) (over (keys_bytes (books_of balances.now) (books_of balances.now).lines) out.old) }
{
    let mut page = Page::new(out);
    page.keys(balances);
    page.len()
}
