// Worked cases of the definitions, the numbers of refusals, and the laws of the policies.
ghost use Rattle.std.specs.Prelude.{ℕ};
ghost use Rattle.meaning.specs.Cases.{TenCases};
ghost use Rattle.meaning.specs.Numbers.{NumbersStand};
ghost use Rattle.meaning.specs.Policies.{Lawful, open_to_all, floor, ceiling, by_class};
ghost use Rattle.meaning.specs.Rules.{Policy};

// The definitions answer ten worked cases as they should.
pub fn cases_hold()
    ensures { TenCases }
{}

// Each number that the rules name is a refusal's, and each refusal is that of its number.
pub fn numbers_stand()
    ensures { NumbersStand }
{}

// The policies keep the two laws, and so does a choice between two that do.
pub fn policies_are_lawful()
    ensures by_open { Lawful open_to_all }
    ensures by_floor { Lawful floor }
    ensures by_ceiling { Lawful ceiling }
    ensures by_class { (from : ℕ) (below above : Policy) → Lawful below → Lawful above → Lawful (by_class from below above) }
{}
