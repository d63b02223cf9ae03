// The library for the hub: scripts of calls run from C, and what a hub asks of a strip and of a label.
#![tactic(auto)]

ghost use Rattle.std.specs.Prelude.{◌≡◌, length};
ghost use Rattle.scripts.specs.Forms.{script_at};
ghost use Rattle.scripts.specs.Ended.{ending, told, output_after, memory_after, code_in};
ghost use Rattle.meaning.specs.Labels.{is_label};
ghost use Rattle.journal.specs.Strips.{made_bytes, made_list, used_of};

use journal::Strip;
use meaning::Label;
use scripts::run;

// Runs a script, as `water_book.h` says; how it ended, and in `written` how many bytes of the output were written. A
// script that can't be read in whole changes nothing.
#[unsafe(no_mangle)]
pub extern "C" fn water_book_run(
    script: &[u8],
    memory: &mut [u8],
    output: &mut [u8],
    written: &mut u64,
) -> u32
    ensures ended { result ≡ code_in (ending (script_at script.now) memory.old output.old) }
    ensures written { written.new ≡ length (told (script_at script.now) memory.old output.old) }
    ensures memory { memory.new ≡ memory_after (script_at script.now) memory.old output.old }
    ensures output { output.new ≡ output_after (script_at script.now) memory.old output.old }
{
    let (length, ended) = run(script, memory, output);
    *written = length as u64;
    match ended {
        Ok(()) => 0,
        Err(bad) => bad as u32,
    }
}

// The strip's memory again, and how many of its bytes are in use.
fn measure<'a>(memory: &'a mut [u8], used: usize) -> (&'a mut [u8], usize)
    ensures home { result.0.ghost_name ≡ memory.entry.ghost_name }
    ensures bytes { result.0.now ≡ made_bytes memory.old used }
    ensures used { result.1 ≡ used_of (made_bytes memory.old used) (length (made_list memory.old used)) }
{
    let strip = Strip::make(memory, used);
    let used = strip.used();
    (strip.give_back(), used)
}

// How many bytes of a strip are in use: those of its sound records, up to the first that is unsound or cut. At 0 it begins
// anew, and the version byte is written.
#[unsafe(no_mangle)]
pub extern "C" fn water_book_used(memory: &mut [u8], used: usize) -> usize
    ensures used { result ≡ used_of (made_bytes memory.old used) (length (made_list memory.old used)) }
    ensures bytes { memory.new ≡ made_bytes memory.old used }
{
    let (_memory, used) = measure(memory, used);
    used
}

// Whether a number is a label.
#[unsafe(no_mangle)]
pub extern "C" fn water_book_is_label(code: u64) -> bool
    ensures { result ≡ is_label code }
{
    Label::new(code).is_some()
}
