// The tables move from one moment to a later one: what falls due lapses.
#![tactic(auto)]

ghost use Rattle.std.specs.Prelude.{◌≡◌, ℕ, ◌≤◌, length};
ghost use Rattle.std.specs.Result.{result_err};
ghost use Rattle.meaning.specs.Given.{Journal};
ghost use Rattle.meaning.specs.Moves.{refused_with};
ghost use Rattle.meaning.specs.Rules.{Policy};
ghost use Rattle.balances.specs.Books.{books_of};
ghost use Rattle.laws.specs.Steps.{Reads};
ghost use Rattle.image.specs.Image.{image_of, lapses as lapses_of};
ghost use Rattle.moves.specs.MovesOn.{MovesOn};
ghost use Rattle.moves.specs.Turns.{filled_in};

use balances::Balances;
use meaning::limits::LAST_MOMENT;
use meaning::{Moved, Refusal};

// Lets everything lapse that is due by the moment.
pub fn advance(balances: &mut Balances, moment: u64)
    ensures { (policy : Policy) (J : Journal) (T : ℕ) → Reads policy J → books_of balances.old ≡ image_of J T → T ≤ moment → books_of balances.new ≡ image_of J moment }
{
    let due = balances.count_due(moment);
    // So many turns: `lapse_next` takes the next key itself, so nothing is counted by hand.
    for _turn in 0..due {
        let _ = balances.lapse_next(moment);
    }
}

// Whether the tables may move, with so many places for so many that fall due.
fn check_move(from: u64, to: u64, places: usize, due: usize) -> Result<(), Refusal>
    ensures { result_err result ≡ refused_with from to places due }
{
    if to > LAST_MOMENT {
        return Err(Refusal::MomentTooLate);
    }
    if to < from {
        return Err(Refusal::MomentEarlier);
    }
    if places < due {
        return Err(Refusal::LapsesTooShort);
    }
    Ok(())
}

// Lets one reservation lapse for each place, and writes its number there.
fn lapse_into(balances: &mut Balances, moment: u64, places: &mut [u32])
    ensures books { books_of balances.new ≡ lapses_of (length places.old) moment (books_of balances.old) }
    ensures numbers { places.new ≡ filled_in moment (books_of balances.old) places.old }
{
    for place in places.iter_mut() {
        if let Some(number) = balances.lapse_next(moment) {
            *place = number;
        }
    }
}

// Moves from one moment to another: what falls due lapses, by deadline and then number, into the list's first places.
pub fn move_on(
    balances: &mut Balances,
    from: u64,
    to: u64,
    lapses: &mut [u32],
) -> Result<Moved, Refusal>
    ensures { (policy : Policy) (J : Journal) → Reads policy J → books_of balances.old ≡ image_of J from → MovesOn J from to lapses.old result lapses.new (books_of balances.new) }
{
    let due = balances.count_due(to);
    check_move(from, to, lapses.len(), due)?;
    lapse_into(balances, to, &mut lapses[0..due]);
    Ok(Moved {
        lapsed: due as u64,
        next_deadline: balances.next_deadline(),
    })
}
