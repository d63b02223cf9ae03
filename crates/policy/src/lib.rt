// Which totals an account may have.
#![tactic(auto)]

pub mod policies;
pub mod policy;

pub use policies::{ByClass, Ceiling, Floor, Open};
pub use policy::Policy;
