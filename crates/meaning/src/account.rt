// An account, as it stands in the table and as a question is answered. What an opening asks for has a label that may be
// malformed, and no totals yet.
ghost use Rattle.std.specs.Prelude.{◌≡◌};
ghost use Rattle.meaning.specs.Rows.{standing_of, debited, credited, debit_released, credit_released};

use crate::label::Label;
use crate::limit::Limit;
use crate::totals::Totals;

#[derive(Clone, Copy)]
pub struct Account {
    pub number: u32,
    pub ledger: u16,
    pub class: u8,
    pub limit: Limit,
    pub label: Label,
    pub totals: Totals,
}

// Each side keeps its own name, as the rules have them; what a side does is written once, in `Side`.
impl Account {
    // Debits more, pending and posted, where the debit side takes both.
    pub fn debit(&mut self, pending: u64, posted: u64)
        ensures { standing_of self.new ≡ debited pending posted (standing_of self.old) }
    {
        self.totals.debits.add(pending, posted);
    }

    // Credits more, pending and posted, where the credit side takes both.
    pub fn credit(&mut self, pending: u64, posted: u64)
        ensures { standing_of self.new ≡ credited pending posted (standing_of self.old) }
    {
        self.totals.credits.add(pending, posted);
    }

    // Takes an amount out of the pending debits, and posts a part of it.
    pub fn release_debit(&mut self, amount: u64, part: u64)
        ensures { standing_of self.new ≡ debit_released amount part (standing_of self.old) }
    {
        self.totals.debits.release(amount, part);
    }

    // Takes an amount out of the pending credits, and posts a part of it.
    pub fn release_credit(&mut self, amount: u64, part: u64)
        ensures { standing_of self.new ≡ credit_released amount part (standing_of self.old) }
    {
        self.totals.credits.release(amount, part);
    }
}
