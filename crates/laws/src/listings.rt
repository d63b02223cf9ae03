// What a listing is.

ghost use Rattle.std.specs.Prelude.{ℕ};
ghost use Rattle.meaning.specs.Given.{Journal, accounts};
ghost use Rattle.meaning.specs.Rules.{Policy};
ghost use Rattle.laws.specs.Steps.{Reads};
ghost use Rattle.laws.specs.Listed.{HasListing, RisesStrictly, SumsItsLines, LinesCounted, NumbersDiffer, Labelled};

// A listing shows each account of the journal once, and each ledger's sums behind its accounts.
pub fn listings_go_by_ledgers()
    ensures listing { (J : Journal) (T : ℕ) → HasListing J T }
    ensures strictly { (J : Journal) (T : ℕ) → RisesStrictly J T }
    ensures summed { (J : Journal) (T : ℕ) → SumsItsLines J T }
    ensures counted { (J : Journal) (T : ℕ) → LinesCounted J T }
{}

// In a journal that reads, no two accounts have one number, and each has a label.
pub fn accounts_are_apart()
    ensures differ { (policy : Policy) (J : Journal) → Reads policy J → NumbersDiffer (accounts J) }
    ensures labelled { (policy : Policy) (J : Journal) → Reads policy J → Labelled (accounts J) }
{}
