// The book: its calls, over any journal and any limit policy.
#![tactic(auto)]

pub mod book;

pub use book::Book;
