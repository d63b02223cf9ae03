// Whole runs of a book: any past from its creation on, and any further calls.
#![tactic(auto)]

pub mod call;
pub mod calling;
pub mod desk;
pub mod histories;
pub mod keeping;
pub mod runs;
pub mod takeovers;
pub mod told;

pub use call::{Ask, Call, Span};
pub use desk::Desk;
pub use told::Told;
