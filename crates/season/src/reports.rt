// A book's listing.
use book::Book;
use journal::Journal;
use policy::Policy;

// Longer than the listing of a few accounts; the bytes behind it are 0.
pub const LISTING: usize = 1024;

pub fn listing<J: Journal, P: Policy>(book: &Book<J, P>) -> [u8; LISTING] {
    let mut buffer = [0; LISTING];
    let _ = book.report(&mut buffer);
    buffer
}
