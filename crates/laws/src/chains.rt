// How orders fall into chains, and what becomes of the chains of a batch.

ghost use Rattle.std.specs.Prelude.{ℕ, List};
ghost use Rattle.meaning.specs.declared.order.Order.{Order};
ghost use Rattle.meaning.specs.Given.{Journal};
ghost use Rattle.meaning.specs.Rules.{Policy};
ghost use Rattle.laws.specs.Chains.{FallIntoChains, ChainAt, HasOutcome, IsWhole, LeavesNoTrace, IsCut};

// The chains of orders are those that an order without the linked mark ends, and no others.
pub fn orders_fall_into_chains()
    ensures { (os : List Order) → FallIntoChains os }
{}

// A batch has one outcome: each chain is answered as one when its turn comes, and what is taken
// joins. A chain that is refused leaves no trace, and a batch may be cut between two chains.
pub fn batches_go_by_chains()
    ensures outcome { (policy : Policy) (J : Journal) (T spare : ℕ) (os : List Order)
        → HasOutcome policy J T spare os }
    ensures whole { (policy : Policy) (J : Journal) (T spare : ℕ) (os : List Order) (n : ℕ) (c : List Order)
        → ChainAt os n c → IsWhole policy J T spare os n c }
    ensures no_trace { (policy : Policy) (J : Journal) (T spare : ℕ) (os : List Order) (n : ℕ) (c : List Order)
        → ChainAt os n c → LeavesNoTrace policy J T spare os n c }
    ensures cut { (policy : Policy) (J : Journal) (T spare : ℕ) → IsCut policy J T spare }
{}
