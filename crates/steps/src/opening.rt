// Opening an account: its rules in their order, and its row in the tables.
ghost use Rattle.std.specs.Prelude.{◌≡◌, ℕ, ◌^◌, ◌<◌, IfOk, OnOk, ◌==◌};
ghost use Rattle.std.specs.Result.{result_err};
ghost use Rattle.meaning.specs.Basics.{first_of};
ghost use Rattle.meaning.specs.Given.{Journal};
ghost use Rattle.meaning.specs.Rows.{standing_of};
ghost use Rattle.meaning.specs.Rules.{Policy as Admission, place_checks, zeros_checks, opening_refused};
ghost use Rattle.steps.specs.Openings.{at_zero, Narrowed, Opens};
ghost use Rattle.steps.specs.Shown.{Shown};

use balances::Balances;
use meaning::limits::ACCOUNTS;
use meaning::{Account, Label, Limit, Opening, Refusal, Totals};
use policy::Policy;

// A number that is free, and a ledger.
fn check_place(balances: &Balances, number: u32, ledger: u16) -> Result<(), Refusal>
    ensures answer { (policy : Admission) (J : Journal) (T : ℕ) → Shown policy J T balances.now → result_err result ≡ first_of (place_checks J number ledger) }
    ensures narrow { (number < 2 ^ 32) × (ledger < 2 ^ 16) }
{
    if number == 0 || balances.account(number).is_some() {
        return Err(Refusal::AccountNumber);
    }
    if ledger == 0 {
        return Err(Refusal::Ledger);
    }
    Ok(())
}

// The policy's word on an account with four zeros.
fn check_zeros<P: Policy>(policy: &P, class: u8, limit: Limit) -> Result<(), Refusal>
    ensures answer { result_err result ≡ first_of (zeros_checks (P.Policy.admits policy.now) class limit.litres) }
    ensures narrow { class < 2 ^ 8 }
{
    if policy.admits(class, limit, &Totals::zero()) {
        Ok(())
    } else {
        Err(Refusal::AccountNotAdmitted)
    }
}

// An account that may be opened, or the first rule that it breaks. The spare is that of the journal.
fn check_opening<P: Policy>(
    balances: &Balances,
    policy: &P,
    spare: u64,
    opening: &Opening,
) -> Result<Account, Refusal>
    ensures answer { (J : Journal) (T : ℕ) → Shown (P.Policy.admits policy.now) J T balances.now → result_err result ≡ opening_refused (P.Policy.admits policy.now) J (spare == 0) opening.now }
    ensures account { IfOk result (λ a. standing_of a ≡ at_zero opening.now) }
    ensures narrow { OnOk result (Narrowed opening.now) }
{
    check_place(balances, opening.number, opening.ledger)?;
    let limit = Limit::new(opening.limit).ok_or(Refusal::Limit)?;
    let label = Label::new(opening.label).ok_or(Refusal::LabelMalformed)?;
    if balances.opened() >= ACCOUNTS {
        return Err(Refusal::AccountsFull);
    }
    if spare == 0 {
        return Err(Refusal::JournalFull);
    }
    check_zeros(policy, opening.class, limit)?;
    Ok(Account {
        number: opening.number,
        ledger: opening.ledger,
        class: opening.class,
        limit,
        label,
        totals: Totals::zero(),
    })
}

// Opens an account in the tables, or says why not and leaves them.
pub fn open_account<P: Policy>(
    balances: &mut Balances,
    policy: &P,
    spare: u64,
    opening: &Opening,
) -> Result<(), Refusal>
    ensures { (J : Journal) (T : ℕ) → Shown (P.Policy.admits policy.now) J T balances.old → Opens (P.Policy.admits policy.now) J T (spare == 0) opening.now result balances.new }
{
    let account = check_opening(balances, policy, spare, opening)?;
    balances.open(account);
    Ok(())
}
