// A book owns its journal and its policy, and keeps the tables that the journal's entries make. Its functions stand in
// modules below, since definitions name this struct.
ghost use Rattle.std.specs.Prelude.{◌≡◌, ◌≤◌};
ghost use Rattle.meaning.specs.Reading.{reading as reading_of};
ghost use Rattle.balances.specs.Books.{books_of};
ghost use Rattle.steps.specs.Written.{journal_of};
ghost use Rattle.reading.specs.Stands.{start_of, end_of, tables_of};

use balances::Balances;
use journal::Journal;
use meaning::Reading;
use policy::Policy;

mod asking;
mod batch;
mod creating;
mod moving;
mod opening;
mod reporting;

#[derive(Drop)]
pub struct Book<J: Journal, P: Policy> {
    balances: Balances,
    policy: P,
    journal: J,
    moment: u64,
    reading: Reading,

    // What every book keeps, whatever its past: how reading ended is what its journal gives, and so is what its tables
    // hold at its moment.
    ghost read: { reading ≡ reading_of (P.Policy.admits policy) (journal_of J.Journal journal) },
    ghost begun: { start_of reading (journal_of J.Journal journal) ≤ moment },
    ghost in_time: { moment ≤ end_of reading },
    ghost tables: { books_of balances ≡ tables_of reading (journal_of J.Journal journal) moment },
}
