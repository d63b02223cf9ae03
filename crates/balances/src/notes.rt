// What an open chain notes: what its legs wrote over, and the queue as it was.
use meaning::limits::{LEGS, RESERVATIONS};
use meaning::{Account, Record, Reservation};
use ordered::{CopyRow, Due};

mod noting;

// What a leg wrote over, so that it can be put back: the fields of its definition, `Trace`, as they stand there.
#[derive(Clone, Copy)]
pub struct Undo {
    pub(crate) debit: usize,
    pub(crate) debit_was: Account,
    pub(crate) credit: usize,
    pub(crate) credit_was: Account,
    pub(crate) slot: usize,
    pub(crate) slot_was: Reservation,
    pub(crate) reserved_was: usize,
    pub(crate) highest_was: u32,
}

// A leg that was taken: what it wrote over, and the record that it writes into a journal.
#[derive(Clone, Copy)]
pub struct Leg {
    pub(crate) undo: Undo,
    pub(crate) fields: Record,
}

// Clauses see what is noted, by `noted`: a view as a type (`Model`) would hide what a copy needs.
#[derive(Clone, Copy)]
pub struct Notes {
    queue: CopyRow<Due, RESERVATIONS>,
    legs: CopyRow<Leg, LEGS>,
}
