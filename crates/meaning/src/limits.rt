// The bounds of a book, named once.

// The most litres that one side of an account may hold, and the highest limit and amount: 2^56 − 1.
pub const TOP: u64 = 0x00ff_ffff_ffff_ffff;

// The last moment, in seconds since 1 January 2000, 00:00 station time: 2^40 − 1.
pub const LAST_MOMENT: u64 = 0x00ff_ffff_ffff;

// The longest time from a reserve to its deadline, in seconds: 2^32 − 1.
pub const LONGEST: u64 = 0xffff_ffff;

// How many accounts a book holds at most.
pub const ACCOUNTS: usize = 64;

// How many reservations a book holds at most, resolved ones counted.
pub const RESERVATIONS: usize = 256;

// How many legs a chain has at most.
pub const LEGS: usize = 16;
