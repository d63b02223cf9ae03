// A limit policy says yes or no to a class, a limit and a set of totals.
ghost use Rattle.std.specs.Prelude.{◌≡◌, Bool, ℕ};
ghost use Rattle.meaning.specs.Policies.{Lawful};

use meaning::{Limit, Totals};

pub trait Policy {
    // What it admits: a class, a limit, and the totals DP, DQ, CP, CQ.
    ghost admits: { Self → (class limit dp dq cp cq : ℕ) → Bool };

    fn admits(&self, class: u8, limit: Limit, totals: &Totals) -> bool
        ensures { result ≡ admits self.now class limit.litres totals.now.debits.pending totals.now.debits.posted totals.now.credits.pending totals.now.credits.posted };

    // It admits nothing but what an account can have; there, what is pending may go, and as much of it or less be posted.
    ghost lawful: { (policy : Self) → Lawful (admits policy) };
}
