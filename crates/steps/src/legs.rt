// One leg: its rules in their order, and what it does to the tables.
ghost use Rattle.std.specs.Prelude.{◌≡◌, ℕ, ◌+◌, ◌^◌, ◌<◌, ◌≤◌, true, is_ok, if◌then◌else◌};
ghost use Rattle.std.specs.Result.{result_err};
ghost use Rattle.meaning.specs.declared.content.Content.TheVariants.{Transfer, Reserve, Post, Void};
ghost use Rattle.meaning.specs.declared.fate.Fate.TheVariants.{Live};
ghost use Rattle.meaning.specs.Basics.{first_of};
ghost use Rattle.meaning.specs.Given.{Journal};
ghost use Rattle.meaning.specs.Limits.{most_legs};
ghost use Rattle.meaning.specs.Rows.{standing_of};
ghost use Rattle.meaning.specs.Rules.{Policy as Admission, policy_checks, movement_refused, deadline as deadline_of, content_of, leg_writes};
ghost use Rattle.meaning.specs.Sound.{last, is_until};
ghost use Rattle.balances.specs.Chains.{GoesOn, Writes, leg_of};
ghost use Rattle.balances.specs.Undone.{legs_of};
ghost use Rattle.steps.specs.Legs.{Narrow};
ghost use Rattle.steps.specs.Shown.{Shown, Stepped};

use balances::{Chain, Movement};
use meaning::{Account, Action, Fate, Order, Refusal, Reservation};
use policy::Policy;

// The policy's word on what two accounts would show.
fn ask<P: Policy>(policy: &P, debit: &Account, credit: &Account) -> Result<(), Refusal>
    ensures { result_err result ≡ first_of (policy_checks (P.Policy.admits policy.now) (standing_of debit.now) (standing_of credit.now)) }
{
    if !policy.admits(debit.class, debit.limit, &debit.totals) {
        return Err(Refusal::DebitNotAdmitted);
    }
    if !policy.admits(credit.class, credit.limit, &credit.totals) {
        return Err(Refusal::CreditNotAdmitted);
    }
    Ok(())
}

// The rules of a movement between two accounts; the policy is asked last. It is inlined as what it asks of the chain is.
#[inline(always)]
fn check_movement<P: Policy>(
    chain: &Chain<'_>,
    policy: &P,
    movement: Movement,
) -> Result<(), Refusal>
    ensures narrow { Narrow movement.number movement.debit movement.credit }
    ensures answer { (J : Journal) (T : ℕ) → Shown (P.Policy.admits policy.now) J T chain.now.balances.now → movement.pending + movement.posted < 2 ^ 64 → result_err result ≡ movement_refused (P.Policy.admits policy.now) J T movement.number movement.debit movement.credit movement.pending movement.posted }
{
    let outlook = chain.outlook(&movement)?;
    ask(policy, &outlook.debit, &outlook.credit)
}

// The deadline of a reserve: none, said by 0 as in a record, where the duration is 0.
fn deadline(moment: u64, duration: u32) -> u64
    ensures until { moment ≤ last → result ≡ deadline_of moment duration }
    ensures narrow { duration < 2 ^ 32 }
{
    if duration == 0 {
        0
    } else {
        moment.saturating_add(u64::from(duration))
    }
}

fn take_transfer<P: Policy>(
    chain: &mut Chain<'_>,
    policy: &P,
    number: u32,
    linked: bool,
    debit: u32,
    credit: u32,
    amount: u64,
) -> Result<(), Refusal>
    ensures goes_on { GoesOn chain.old (is_ok result) chain.new }
    ensures written { Writes chain.old (is_ok result)
        (leg_of chain.old number linked (Transfer debit credit amount)) chain.new }
    ensures leg { (J : Journal) (T : ℕ) → Shown (P.Policy.admits policy.now) J T chain.old.balances.now → legs_of chain.old.balances.now < most_legs → Stepped (P.Policy.admits policy.now) J T number (Transfer debit credit amount) result chain.new.balances.now }
{
    let movement = Movement {
        number,
        debit,
        credit,
        pending: 0,
        posted: amount,
    };
    check_movement(chain, policy, movement)?;
    chain.transfer(number, linked, debit, credit, amount)
}

fn take_reserve<P: Policy>(
    chain: &mut Chain<'_>,
    policy: &P,
    linked: bool,
    held: Reservation,
) -> Result<(), Refusal>
    ensures goes_on { GoesOn chain.old (is_ok result) chain.new }
    ensures written { Writes chain.old (is_ok result)
        (leg_of chain.old held.number linked (Reserve held.debit held.credit held.amount held.deadline))
        chain.new }
    ensures leg { (J : Journal) (T : ℕ) → Shown (P.Policy.admits policy.now) J T chain.old.balances.now → legs_of chain.old.balances.now < most_legs → held.fate ≡ Live → is_until T held.deadline ≡ true → Stepped (P.Policy.admits policy.now) J T held.number (Reserve held.debit held.credit held.amount held.deadline) result chain.new.balances.now }
{
    let movement = Movement {
        number: held.number,
        debit: held.debit,
        credit: held.credit,
        pending: held.amount,
        posted: 0,
    };
    check_movement(chain, policy, movement)?;
    chain.reserve(linked, held)
}

fn take_post(
    chain: &mut Chain<'_>,
    number: u32,
    linked: bool,
    reservation: u32,
    amount: u64,
) -> Result<(), Refusal>
    ensures goes_on { GoesOn chain.old (is_ok result) chain.new }
    ensures written { Writes chain.old (is_ok result)
        (leg_of chain.old number linked (Post reservation amount)) chain.new }
    ensures leg { (policy : Admission) (J : Journal) (T : ℕ) → Shown policy J T chain.old.balances.now → legs_of chain.old.balances.now < most_legs → Stepped policy J T number (Post reservation amount) result chain.new.balances.now }
{
    chain.post(number, linked, reservation, amount)
}

fn take_void(
    chain: &mut Chain<'_>,
    number: u32,
    linked: bool,
    reservation: u32,
) -> Result<(), Refusal>
    ensures goes_on { GoesOn chain.old (is_ok result) chain.new }
    ensures written { Writes chain.old (is_ok result)
        (leg_of chain.old number linked (Void reservation)) chain.new }
    ensures leg { (policy : Admission) (J : Journal) (T : ℕ) → Shown policy J T chain.old.balances.now → legs_of chain.old.balances.now < most_legs → Stepped policy J T number (Void reservation) result chain.new.balances.now }
{
    chain.void(number, linked, reservation)
}

// Gives a leg to a chain, or says why not and leaves it.
pub fn run_leg<P: Policy>(chain: &mut Chain<'_>, policy: &P, order: &Order) -> Result<(), Refusal>
    ensures goes_on { GoesOn chain.old (is_ok result) chain.new }
    ensures written { chain.old.moment ≤ last
        → Writes chain.old (is_ok result) (leg_writes chain.old.moment order.now) chain.new }
    ensures leg { (J : Journal) → Shown (P.Policy.admits policy.now) J chain.old.moment chain.old.balances.now
        → legs_of chain.old.balances.now < most_legs → chain.old.moment ≤ last
        → Stepped (P.Policy.admits policy.now) J chain.old.moment order.now.number
        (content_of chain.old.moment order.now.action) result chain.new.balances.now }
{
    let number = order.number;
    let linked = order.linked;
    match order.action {
        Action::Transfer {
            debit,
            credit,
            amount,
        } => take_transfer(chain, policy, number, linked, debit, credit, amount),
        Action::Reserve {
            debit,
            credit,
            amount,
            duration,
        } => {
            let held = Reservation {
                number,
                debit,
                credit,
                amount,
                deadline: deadline(chain.moment(), duration),
                fate: Fate::Live,
            };
            take_reserve(chain, policy, linked, held)
        }
        Action::Post {
            reservation,
            amount,
        } => take_post(chain, number, linked, reservation, amount),
        Action::Void { reservation } => take_void(chain, number, linked, reservation),
    }
}
