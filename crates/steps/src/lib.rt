// Steps of a book over its tables, its policy and its journal: openings, legs and chains, by the rules over journal
// and moment.
#![tactic(auto)]

pub mod batches;
pub mod chains;
pub mod legs;
pub mod opening;
pub mod writing;
