// What is to move between two accounts, and what they would show.
use meaning::Account;

// So much more, pending and posted, from one account to another, by an order of this number.
#[derive(Clone, Copy)]
pub struct Movement {
    pub number: u32,
    pub debit: u32,
    pub credit: u32,
    pub pending: u64,
    pub posted: u64,
}

// The debit and the credit account of a leg.
#[derive(Clone, Copy)]
pub struct Outlook {
    pub debit: Account,
    pub credit: Account,
}
