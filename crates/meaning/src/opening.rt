// What is asked for when an account is opened.

#[derive(Clone, Copy)]
pub struct Opening {
    pub number: u32,
    pub ledger: u16,
    pub class: u8,
    pub limit: u64,
    // The label's 64-bit number; nothing is known of it yet.
    pub label: u64,
}
