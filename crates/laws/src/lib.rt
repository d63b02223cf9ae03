// What the definitions keep, as theorems: each clause of the contract is one law.
#![tactic(auto)]

pub mod chains;
pub mod labels;
pub mod listings;

ghost use Rattle.std.specs.Prelude.{ℕ, List};
ghost use Rattle.meaning.specs.declared.order.Order.{Order};
ghost use Rattle.meaning.specs.Given.{Journal};
ghost use Rattle.meaning.specs.Rules.{Policy};
ghost use Rattle.laws.specs.Laws.{PrefixReads, TotalsStep, FatesStep, ClosedAtMostOnce, LedgersBalance, AccountsAreAdmitted, WritingsRead, BatchesFit};

// The definitions keep these laws.
pub fn laws_hold()
    ensures prefix { PrefixReads }
    ensures totals { TotalsStep }
    ensures fates { FatesStep }
    ensures once { ClosedAtMostOnce }
    ensures balance { LedgersBalance }
    ensures admitted { AccountsAreAdmitted }
    ensures writings { (policy : Policy) → WritingsRead policy }
    ensures fits { (policy : Policy) (J : Journal) (T spare : ℕ) (os : List Order) → BatchesFit policy J T spare os }
{}
