// A season of one dam: accounts are opened, water is moved, set aside, posted, voided and left to lapse. Then a second
// book reads the strip that the first has written, and a third takes over from it while the first goes on.
#![tactic(auto)]

mod asking;
mod memory;
mod plan;
mod reports;
mod standby;
mod told;

use book::Book;
use journal::{Journal, Strip};
use plan::{orders, policy, season};
use promise::Ask;
use std::io;

// Room for a version byte and 256 records, as many as a roll takes.
const MEMORY: usize = 12289;

fn main(rt: HostRuntime) -> io::Result<()> {
    let mut memory = [0u8; MEMORY];
    let mut book = Book::create(Strip::make(&mut memory, 0), policy());
    for ask in &season() {
        asking::ask(&rt, &mut book, &orders(), ask)?;
    }
    let listing = reports::listing(&book);
    let moment = book.moment();
    let (strip, _) = book.close();
    let used = strip.used();
    memory::show(&rt, strip.give_back(), used)?;
    replay(&rt, &mut memory, used, moment, &listing)?;
    standby::take_over(&rt, &mut memory, used)
}

// A second book over the same bytes, at the same moment: its listing is that of the first.
fn replay(
    rt: &HostRuntime,
    memory: &mut [u8],
    used: usize,
    moment: u64,
    listing: &[u8],
) -> io::Result<()> {
    let strip = Strip::make(memory, used);
    let count = strip.count();
    let mut book = Book::create(strip, policy());
    println!(rt; "replay: {count} records")?;
    asking::ask(rt, &mut book, &[], &Ask::Reading)?;
    asking::move_to(rt, &mut book, moment)?;
    let equal = reports::listing(&book).as_slice() == listing;
    println!(rt; "listing equal: {equal}")
}
