// The words of the water book: what is ordered, what is written down, what a call answers.
#![tactic(auto)]

pub mod account;
pub mod answers;
pub mod cases;
pub mod content;
pub mod display;
pub mod entry;
pub mod fate;
pub mod kind;
pub mod label;
pub mod limit;
pub mod limits;
pub mod opening;
pub mod order;
pub mod raw;
pub mod record;
pub mod refusal;
pub mod reservation;
pub mod side;
pub mod standing;
pub mod totals;

pub use account::Account;
pub use answers::{Answer, Moved, Reading, Stop, number_of};
pub use content::Content;
pub use entry::Entry;
pub use fate::{Event, Fate};
pub use kind::{Kind, UnknownKind};
pub use label::Label;
pub use limit::Limit;
pub use opening::Opening;
pub use order::{Action, Order};
pub use raw::Raw;
pub use record::Record;
pub use refusal::Refusal;
pub use reservation::Reservation;
pub use side::Side;
pub use standing::Standing;
pub use totals::Totals;
