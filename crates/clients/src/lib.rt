// What a program learns from the contracts alone: of its memory after a round, and of a book that takes over.
#![tactic(auto)]

pub mod eighths;
pub mod rounds;
pub mod standby;
