// The tables of a book, and chains of legs on them that undo themselves.
#![tactic(auto)]

pub mod balances;
pub mod chain;
mod notes;
pub mod numbered;
pub mod outlook;
mod plain;
pub mod receipt;

pub use balances::Balances;
pub use chain::Chain;
pub use outlook::{Movement, Outlook};
pub use receipt::Receipt;
