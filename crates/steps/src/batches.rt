// Batches: the orders one after another, chain by chain.
ghost use Rattle.std.specs.Prelude.{◌≡◌, ◌-◌, length, replicate, slice_set};
ghost use Rattle.meaning.specs.declared.refusal.Refusal.TheVariants.{ChainRefused, ChainUnfinished};
ghost use Rattle.meaning.specs.Batches.{batch};
ghost use Rattle.steps.specs.Chained.{Tied, Batched};
ghost use Rattle.steps.specs.Written.{journal_of};

use crate::chains::{refuse, run_chain};
use balances::Balances;
use journal::Journal;
use meaning::{Answer, Order, Refusal};
use policy::Policy;

// The orders of a chain with which the batch ends unfinished: the last is told so, and the others with it.
fn refuse_unfinished(answers: &mut [Answer])
    ensures { answers.new ≡ slice_set (replicate (length answers.old) (Err ChainRefused)) (length answers.old - 1) (Err ChainUnfinished) }
{
    let last = answers.len().saturating_sub(1);
    refuse(answers, last, Refusal::ChainUnfinished);
}

// Runs the orders chain by chain, writes each answer at its order's place, and counts the orders taken.
// A book lends its parts one by one: a struct of these loans would name each of them in every clause again.
pub fn run_batch<J: Journal, P: Policy>(
    balances: &mut Balances,
    policy: &P,
    journal: &mut J,
    moment: u64,
    orders: &[Order],
    answers: &mut [Answer],
) -> Result<usize, Refusal>
    ensures { Tied J.Journal (P.Policy.admits policy.now) moment balances.old journal.old → Batched J.Journal (P.Policy.admits policy.now) moment journal.old (batch (P.Policy.admits policy.now) (journal_of J.Journal journal.old) moment (J.Journal.spare journal.old) orders.now) orders.now answers.old result answers.new balances.new journal.new }
{
    if answers.len() < orders.len() {
        return Err(Refusal::AnswersTooShort);
    }
    let mut taken = 0;
    let mut start = 0;
    // Answers stand at their orders' places, so the loop goes with the index.
    for (i, order) in orders.iter().enumerate() {
        if !order.linked {
            taken += run_chain(
                balances,
                policy,
                journal,
                moment,
                &orders[start..i + 1],
                &mut answers[start..i + 1],
            );
            start = i + 1;
        }
    }
    refuse_unfinished(&mut answers[start..orders.len()]);
    Ok(taken)
}
