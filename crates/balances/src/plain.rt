// The plain tables: accounts and reservations as they came, the keys of live deadlines and of the listing in order.
// Their functions stand in modules below, since definitions name this struct.
use meaning::limits::{ACCOUNTS, RESERVATIONS};
use meaning::{Account, Reservation};
use ordered::{CopyRow, Due, Line};

pub(crate) mod judging;
mod lapses;
mod legs;
pub(crate) mod opening;
mod places;
mod undoing;

#[derive(Clone, Copy)]
pub struct Tables {
    reservations: CopyRow<Reservation, RESERVATIONS>,
    queue: CopyRow<Due, RESERVATIONS>,
    lines: CopyRow<Line, ACCOUNTS>,
    highest: u32,
    accounts: CopyRow<Account, ACCOUNTS>,
}
