// Scripts of calls, as bytes: read, made on a book, and what was told written out.
#![tactic(auto)]

mod bad;
mod fitting;
mod head;
mod making;
mod page;
mod plain;
mod reader;
mod running;
mod showing;
mod step;

pub use bad::Bad;
pub use fitting::listings_fit;
pub use running::run;
