// What a call was told, as the output has it: its code, its answer, and every place of its list.
ghost use Rattle.std.specs.Prelude.{◌≡◌, Ok, Err, Some, None, ◌+◌, ◌*◌, ◌^◌, ◌≤◌, cond, nat_lt, length, take, map, flat_map};
ghost use Rattle.layout.specs.Layout.{bytes_of as entry_bytes};
ghost use Rattle.std.specs.Option.{option_map};
ghost use Rattle.meaning.specs.Numbers.{answer_of};
ghost use Rattle.meaning.specs.Rows.{standing_of};
ghost use Rattle.scripts.specs.Limits.{most_answers, most_lapses};
ghost use Rattle.scripts.specs.Pages.{laid, if_fits, Put, PutBefore};
ghost use Rattle.scripts.specs.declared.bad.Bad.TheVariants.{Output};
ghost use Rattle.scripts.specs.Told.{as_4, or_0, told_opened, told_ran, told_moved, told_reported, told_account, fate_number, told_reservation, told_moment, told_reading, told_journal};

use crate::bad::Bad;
use crate::page::Page;
use crate::step::{ANSWERS, LAPSES};
use journal::Journal;
use layout::encode;
use meaning::{Account, Answer, Fate, Moved, Reading, Refusal, Reservation, number_of};

// The code behind the last call.
const END: u8 = 255;

pub fn show_opened(page: &mut Page<'_>, answer: &Answer) -> Result<(), Bad>
    ensures same { page.new.bytes.ghost_name ≡ page.old.bytes.ghost_name }
    ensures put { Put page.old (told_opened answer.now) result page.new }
{
    page.put(&[&[1, number_of(answer)]])
}

// The numbers of answers, at the front.
fn numbers_of(answers: &[Answer]) -> [u8; ANSWERS]
    requires { length answers.now ≤ most_answers }
    ensures { take (length answers.now) result ≡ map answer_of answers.now }
{
    let mut numbers = [0; ANSWERS];
    for place in 0..answers.len() {
        numbers[place] = number_of(&answers[place]);
    }
    numbers
}

pub(crate) fn show_ran(
    page: &mut Page<'_>,
    answer: &Result<usize, Refusal>,
    answers: &[Answer],
) -> Result<(), Bad>
    requires { length answers.now ≤ most_answers }
    ensures same { page.new.bytes.ghost_name ≡ page.old.bytes.ghost_name }
    ensures put { Put page.old (told_ran answer.now answers.now) result page.new }
{
    let taken = answer.unwrap_or(0) as u64;
    page.put(&[
        &[2, number_of(answer)],
        &taken.to_be_bytes(),
        &numbers_of(answers)[..answers.len()],
    ])
}

// Numbers as bytes, at the front.
fn bytes_of(numbers: &[u32]) -> [u8; 4 * LAPSES]
    requires { length numbers.now ≤ most_lapses }
    ensures { take (4 * length numbers.now) result ≡ flat_map as_4 numbers.now }
{
    let mut bytes = [0; 4 * LAPSES];
    for place in 0..numbers.len() {
        bytes[4 * place..4 * place + 4].copy_from_slice(&numbers[place].to_be_bytes());
    }
    bytes
}

fn parts_of(answer: &Result<Moved, Refusal>) -> (u64, u64)
    ensures { result ≡ (or_0 (λ m. m.lapsed) answer.now, or_0 (λ m. m.next_deadline) answer.now) }
{
    match answer {
        Ok(moved) => (moved.lapsed, moved.next_deadline),
        Err(_) => (0, 0),
    }
}

pub(crate) fn show_moved(
    page: &mut Page<'_>,
    answer: &Result<Moved, Refusal>,
    lapses: &[u32],
) -> Result<(), Bad>
    requires { length lapses.now ≤ most_lapses }
    ensures same { page.new.bytes.ghost_name ≡ page.old.bytes.ghost_name }
    ensures put { Put page.old (told_moved answer.now lapses.now) result page.new }
{
    let (lapsed, next) = parts_of(answer);
    page.put(&[
        &[3, number_of(answer)],
        &lapsed.to_be_bytes(),
        &next.to_be_bytes(),
        &bytes_of(lapses)[..4 * lapses.len()],
    ])
}

pub fn show_reported(
    page: &mut Page<'_>,
    answer: &Result<usize, Refusal>,
    bytes: &[u8],
) -> Result<(), Bad>
    ensures same { page.new.bytes.ghost_name ≡ page.old.bytes.ghost_name }
    ensures put { Put page.old (told_reported answer.now bytes.now) result page.new }
{
    let length = answer.unwrap_or(0) as u64;
    page.put(&[&[4, number_of(answer)], &length.to_be_bytes(), bytes])
}

fn show_statement(page: &mut Page<'_>, account: &Account) -> Result<(), Bad>
    ensures same { page.new.bytes.ghost_name ≡ page.old.bytes.ghost_name }
    ensures put { Put page.old (told_account (Some (standing_of account.now))) result page.new }
{
    let (debits, credits) = (account.totals.debits, account.totals.credits);
    page.put(&[
        &[5, 1],
        &account.number.to_be_bytes(),
        &account.ledger.to_be_bytes(),
        &[account.class],
        &account.limit.litres.to_be_bytes(),
        &account.label.code.to_be_bytes(),
        &debits.pending.to_be_bytes(),
        &debits.posted.to_be_bytes(),
        &credits.pending.to_be_bytes(),
        &credits.posted.to_be_bytes(),
    ])
}

pub fn show_account(page: &mut Page<'_>, account: Option<Account>) -> Result<(), Bad>
    ensures same { page.new.bytes.ghost_name ≡ page.old.bytes.ghost_name }
    ensures put { Put page.old (told_account (option_map standing_of account)) result page.new }
{
    match account {
        Some(account) => show_statement(page, &account),
        None => page.put(&[&[5, 0]]),
    }
}

fn fate_number(fate: Fate) -> u8
    ensures { result ≡ fate_number fate }
{
    match fate {
        Fate::Live => 0,
        Fate::Posted => 1,
        Fate::Voided => 2,
        Fate::Lapsed => 3,
    }
}

fn show_held(page: &mut Page<'_>, held: &Reservation) -> Result<(), Bad>
    ensures same { page.new.bytes.ghost_name ≡ page.old.bytes.ghost_name }
    ensures put { Put page.old (told_reservation (Some held.now)) result page.new }
{
    page.put(&[
        &[6, 1],
        &held.number.to_be_bytes(),
        &held.debit.to_be_bytes(),
        &held.credit.to_be_bytes(),
        &held.amount.to_be_bytes(),
        &held.deadline.to_be_bytes(),
        &[fate_number(held.fate)],
    ])
}

pub fn show_reservation(page: &mut Page<'_>, held: Option<Reservation>) -> Result<(), Bad>
    ensures same { page.new.bytes.ghost_name ≡ page.old.bytes.ghost_name }
    ensures put { Put page.old (told_reservation held) result page.new }
{
    match held {
        Some(held) => show_held(page, &held),
        None => page.put(&[&[6, 0]]),
    }
}

pub fn show_moment(page: &mut Page<'_>, moment: u64) -> Result<(), Bad>
    ensures same { page.new.bytes.ghost_name ≡ page.old.bytes.ghost_name }
    ensures put { Put page.old (told_moment moment) result page.new }
{
    page.put(&[&[7], &moment.to_be_bytes()])
}

pub fn show_reading(page: &mut Page<'_>, reading: Reading) -> Result<(), Bad>
    ensures same { page.new.bytes.ghost_name ≡ page.old.bytes.ghost_name }
    ensures put { Put page.old (told_reading reading) result page.new }
{
    let number = reading.map_or_else(|stop| stop.refusal.number(), |_| 0);
    let place = reading.map_or_else(|stop| stop.place, |_| 0);
    page.put(&[&[8, number], &place.to_be_bytes()])
}

// How many bytes a journal of so many entries takes, and how much of its strip is in use behind it.
fn length_of(count: u64) -> Option<usize>
    ensures { result ≡ cond (nat_lt (count * 48 + 25) (2 ^ 64)) (Some (count * 48 + 25)) None }
{
    (count as usize).checked_mul(48)?.checked_add(25)
}

// Puts the entries one behind the other.
fn put_entries<J: Journal>(page: &mut Page<'_>, journal: &J)
    requires { page.old.next + length (flat_map entry_bytes (J.Journal.entries journal.now)) ≤ length page.old.bytes.now }
    ensures same { page.new.bytes.ghost_name ≡ page.old.bytes.ghost_name }
    ensures bytes { page.new.bytes.now ≡ laid page.old.next (flat_map entry_bytes (J.Journal.entries journal.now)) page.old.bytes.now }
    ensures next { page.new.next ≡ page.old.next + length (flat_map entry_bytes (J.Journal.entries journal.now)) }
{
    for place in 0..journal.count() {
        if let Some(entry) = journal.entry_at(place) {
            page.put_one(&encode(&entry));
        }
    }
}

fn check_room(page: &Page<'_>, count: u64) -> Result<(), Bad>
    ensures { result ≡ if_fits page.now (count * 48 + 25) (Ok tt) (Err Output) }
{
    page.has_room(length_of(count).ok_or(Bad::Output)?)
}

fn put_journal<J: Journal>(page: &mut Page<'_>, journal: &J)
    requires { page.old.next + (length (J.Journal.entries journal.now) * 48 + 25) ≤ length page.old.bytes.now }
    ensures same { page.new.bytes.ghost_name ≡ page.old.bytes.ghost_name }
    ensures bytes { page.new.bytes.now ≡ laid page.old.next (told_journal (J.Journal.entries journal.now) (J.Journal.spare journal.now)) page.old.bytes.now }
    ensures next { page.new.next ≡ page.old.next + length (told_journal (J.Journal.entries journal.now) (J.Journal.spare journal.now)) }
{
    let count = journal.count();
    page.put_each(&[&[END], &count.to_be_bytes(), &journal.spare().to_be_bytes()]);
    put_entries(page, journal);
}

// The journal as it is at the end, where there is also room for how much of its strip is in use.
pub fn show_journal<J: Journal>(page: &mut Page<'_>, journal: &J) -> Result<(), Bad>
    ensures same { page.new.bytes.ghost_name ≡ page.old.bytes.ghost_name }
    ensures put { PutBefore page.old (told_journal (J.Journal.entries journal.now) (J.Journal.spare journal.now)) 8 result page.new }
{
    check_room(page, journal.count())?;
    put_journal(page, journal);
    Ok(())
}
