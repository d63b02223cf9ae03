// A script, run from its head to its end.
ghost use Rattle.std.specs.Prelude.{◌≡◌, ℕ, ◌≤◌, List, Ok, Err, length};
ghost use Rattle.book.specs.States.{policy_of, state_of};
ghost use Rattle.promise.specs.Takeovers.{beginning};
ghost use Rattle.scripts.specs.declared.bad.Bad.{Bad as BadScript};
ghost use Rattle.scripts.specs.declared.head.JournalKind.TheVariants.{Roll as OnRoll, Strip as OnStrip, RollAndStrip as OnRollAndStrip, StripAndRoll as OnStripAndRoll};
ghost use Rattle.scripts.specs.Ended.{ending, told, output_after, memory_after};
ghost use Rattle.scripts.specs.Forms.{Call as Called, calls_at, script_at};
ghost use Rattle.scripts.specs.Made.{MadeAll, Over, RanOn, Ends};
ghost use Rattle.scripts.specs.Pages.{Put, PutBefore};
ghost use Rattle.scripts.specs.Readers.{whether, to_run, seen, course_at};
ghost use Rattle.scripts.specs.Runs.{policy_named};
ghost use Rattle.scripts.specs.Told.{as_8, told_journal};

use crate::bad::Bad;
use crate::head::{Head, JournalKind, PolicyKind, read_head};
use crate::making::make;
use crate::page::Page;
use crate::reader::Reader;
use crate::showing::show_journal;
use crate::step::{NO_ORDER, ORDERS, read_step};
use book::Book;
use journal::{Journal, Mirror, Roll, Strip};
use policy::{ByClass, Policy};

// Whether calls can be read until the script ends, and at most so many.
fn check_calls(reader: &mut Reader<'_>, most: usize) -> Result<(), Bad>
    ensures { result ≡ whether (calls_at most reader.old.rest.now) }
{
    let mut orders = [NO_ORDER; ORDERS];
    for _call in 0..most {
        if reader.is_done() {
            return Ok(());
        }
        read_step(reader, &mut orders)?;
    }
    Ok(())
}

// The head of a script that can be read in whole, and the bytes of its calls. No call is shorter than a byte.
fn check(script: &[u8]) -> Result<(Head, &[u8]), Bad>
    ensures { seen result ≡ to_run script.now }
{
    let mut reader = Reader::new(script);
    let head = read_head(&mut reader)?;
    let calls = reader.rest();
    check_calls(&mut reader, calls.len())?;
    Ok((head, calls))
}

// Makes the calls, and puts on the page what each is told. It is not inlined, so that the book's maker is seen to be alone
// with it, and fills it where it stays.
#[inline(never)]
fn run_calls<J: Journal, P: Policy>(
    book: &mut Book<J, P>,
    calls: &[u8],
    page: &mut Page<'_>,
) -> Result<(), Bad>
    requires { page.old.next ≤ length page.old.bytes.now }
    ensures { MadeAll J.Journal P.Policy book.old (course_at (policy_of J.Journal P.Policy book.old) (length page.old.bytes.now) (length calls.now) (state_of J.Journal P.Policy book.old) calls.now page.old.next) page.old result book.new page.new }
{
    let mut reader = Reader::new(calls);
    let mut orders = [NO_ORDER; ORDERS];
    for _call in 0..calls.len() {
        if reader.is_done() {
            return Ok(());
        }
        let step = read_step(&mut reader, &mut orders)?;
        make(book, &step, &orders, page)?;
    }
    Ok(())
}

// Shows the journal where the calls went through.
#[inline(always)]
fn show_end<J: Journal>(page: &mut Page<'_>, ended: Result<(), Bad>, journal: &J) -> Result<(), Bad>
    ensures same { page.new.bytes.ghost_name ≡ page.old.bytes.ghost_name }
    ensures through { ended ≡ Ok tt → PutBefore page.old (told_journal (J.Journal.entries journal.now) (J.Journal.spare journal.now)) 8 result page.new }
    ensures cut { (b : BadScript) → ended ≡ Err b → (result ≡ Err b) × (page.new ≡ page.old) }
{
    match ended {
        Ok(()) => show_journal(page, journal),
        Err(bad) => Err(bad),
    }
}

// All calls on a book over this journal; then the journal, shown where they went through.
fn run_over<J: Journal + Drop, P: Policy + Drop>(
    journal: J,
    policy: P,
    calls: &[u8],
    page: &mut Page<'_>,
) -> (J, Result<(), Bad>)
    requires { page.old.next ≤ length page.old.bytes.now }
    ensures { Over J.Journal journal (course_at (P.Policy.admits policy) (length page.old.bytes.now) (length calls.now) (beginning J.Journal (P.Policy.admits policy) journal) calls.now page.old.next) page.old result.0 result.1 page.new }
{
    let mut book = Book::create(journal, policy);
    let ended = run_calls(&mut book, calls, page);
    let (journal, _) = book.close();
    let ended = show_end(page, ended, &journal);
    (journal, ended)
}

// Shows how much of a strip is in use, where the journal was shown.
fn show_used(page: &mut Page<'_>, shown: Result<(), Bad>, used: usize) -> Result<(), Bad>
    ensures same { page.new.bytes.ghost_name ≡ page.old.bytes.ghost_name }
    ensures through { shown ≡ Ok tt → Put page.old (as_8 used) result page.new }
    ensures cut { (b : BadScript) → shown ≡ Err b → (result ≡ Err b) × (page.new ≡ page.old) }
{
    match shown {
        Ok(()) => page.put(&[&(used as u64).to_be_bytes()]),
        Err(bad) => Err(bad),
    }
}

// One function for each kind of journal, and none of them inlined, so that only one book takes room on the stack. Those
// over a strip give its memory back.
#[inline(never)]
fn run_on_roll<P: Policy + Drop>(policy: P, calls: &[u8], page: &mut Page<'_>) -> Result<(), Bad>
    requires { page.old.next ≤ length page.old.bytes.now }
    ensures { (m : List ℕ) (u : ℕ) → RanOn (P.Policy.admits policy) m u OnRoll calls.now page.old result page.new m }
{
    let (_roll, shown) = run_over(Roll::new(), policy, calls, page);
    show_used(page, shown, 0)
}

#[inline(never)]
fn run_on_strip<'a, P: Policy + Drop>(
    memory: &'a mut [u8],
    used: usize,
    policy: P,
    calls: &[u8],
    page: &mut Page<'_>,
) -> (&'a mut [u8], Result<(), Bad>)
    requires { page.old.next ≤ length page.old.bytes.now }
    ensures home { result.0.ghost_name ≡ memory.entry.ghost_name }
    ensures ran { RanOn (P.Policy.admits policy) memory.old used OnStrip calls.now page.old result.1 page.new result.0.now }
{
    let (strip, shown) = run_over(Strip::make(memory, used), policy, calls, page);
    let ended = show_used(page, shown, strip.used());
    (strip.give_back(), ended)
}

#[inline(never)]
fn run_on_roll_and_strip<'a, P: Policy + Drop>(
    memory: &'a mut [u8],
    used: usize,
    policy: P,
    calls: &[u8],
    page: &mut Page<'_>,
) -> (&'a mut [u8], Result<(), Bad>)
    requires { page.old.next ≤ length page.old.bytes.now }
    ensures home { result.0.ghost_name ≡ memory.entry.ghost_name }
    ensures ran { RanOn (P.Policy.admits policy) memory.old used OnRollAndStrip calls.now page.old result.1 page.new result.0.now }
{
    let journal = Mirror::new(Roll::new(), Strip::make(memory, used));
    let (mirror, shown) = run_over(journal, policy, calls, page);
    let (_first, second) = mirror.apart();
    let ended = show_used(page, shown, second.used());
    (second.give_back(), ended)
}

#[inline(never)]
fn run_on_strip_and_roll<'a, P: Policy + Drop>(
    memory: &'a mut [u8],
    used: usize,
    policy: P,
    calls: &[u8],
    page: &mut Page<'_>,
) -> (&'a mut [u8], Result<(), Bad>)
    requires { page.old.next ≤ length page.old.bytes.now }
    ensures home { result.0.ghost_name ≡ memory.entry.ghost_name }
    ensures ran { RanOn (P.Policy.admits policy) memory.old used OnStripAndRoll calls.now page.old result.1 page.new result.0.now }
{
    let journal = Mirror::new(Strip::make(memory, used), Roll::new());
    let (mirror, shown) = run_over(journal, policy, calls, page);
    let (first, _second) = mirror.apart();
    let ended = show_used(page, shown, first.used());
    (first.give_back(), ended)
}

// Over the journal that the head names.
fn run_by<P: Policy + Drop>(
    head: &Head,
    policy: P,
    calls: &[u8],
    memory: &mut [u8],
    page: &mut Page<'_>,
) -> Result<(), Bad>
    requires { page.old.next ≤ length page.old.bytes.now }
    ensures { RanOn (P.Policy.admits policy) memory.old head.now.used head.now.journal calls.now page.old result page.new memory.new }
{
    let used = head.used;
    match head.journal {
        JournalKind::Roll => run_on_roll(policy, calls, page),
        JournalKind::Strip => run_on_strip(memory, used, policy, calls, page).1,
        JournalKind::RollAndStrip => run_on_roll_and_strip(memory, used, policy, calls, page).1,
        JournalKind::StripAndRoll => run_on_strip_and_roll(memory, used, policy, calls, page).1,
    }
}

// Under the policy that the head names.
fn run_under(head: &Head, calls: &[u8], memory: &mut [u8], page: &mut Page<'_>) -> Result<(), Bad>
    requires { page.old.next ≤ length page.old.bytes.now }
    ensures { RanOn (policy_named head.now.policy) memory.old head.now.used head.now.journal calls.now page.old result page.new memory.new }
{
    match head.policy {
        PolicyKind::Plain(plain) => run_by(head, plain, calls, memory, page),
        PolicyKind::ByClass { below, class, from } => {
            run_by(head, ByClass { below, class, from }, calls, memory, page)
        }
    }
}

// The output again, how many of its bytes were written, and how it ended.
fn run_onto<'a>(
    head: &Head,
    calls: &[u8],
    memory: &mut [u8],
    output: &'a mut [u8],
) -> (&'a mut [u8], usize, Result<(), Bad>)
    ensures home { result.0.ghost_name ≡ output.entry.ghost_name }
    ensures ran { (cs : List Called) → calls_at (length calls.now) calls.now ≡ Ok cs → Ends (Ok (head.now, cs)) memory.old output.old (result.1, result.2) memory.new result.0.now }
{
    let mut page = Page::new(output);
    let ended = run_under(head, calls, memory, &mut page);
    let written = page.written();
    (page.give_back(), written, ended)
}

// Runs a script on a new book, over the memory where it has a strip; how many bytes of the output it wrote, and how it
// ended. A script that can't be read in whole changes nothing.
pub fn run(script: &[u8], memory: &mut [u8], output: &mut [u8]) -> (usize, Result<(), Bad>)
    ensures ended { result.1 ≡ ending (script_at script.now) memory.old output.old }
    ensures written { result.0 ≡ length (told (script_at script.now) memory.old output.old) }
    ensures memory { memory.new ≡ memory_after (script_at script.now) memory.old output.old }
    ensures output { output.new ≡ output_after (script_at script.now) memory.old output.old }
{
    match check(script) {
        Ok((head, calls)) => {
            let (_output, written, ended) = run_onto(&head, calls, memory, output);
            (written, ended)
        },
        Err(bad) => (0, Err(bad)),
    }
}
