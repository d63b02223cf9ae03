// What is asked of a book.

// What an order does.
#[derive(Clone, Copy)]
pub enum Action {
    // Moves an amount for good.
    Transfer {
        debit: u32,
        credit: u32,
        amount: u64,
    },
    // Sets an amount aside, until it is posted, voided or, where the duration is not 0, too old. An `Option` would
    // leave that 0, which the rules have, a second meaning.
    Reserve {
        debit: u32,
        credit: u32,
        amount: u64,
        duration: u32,
    },
    // Moves an amount of a reservation for good, and lets the rest go.
    Post {
        reservation: u32,
        amount: u64,
    },
    // Lets a reservation go.
    Void {
        reservation: u32,
    },
}

// An order, with its number and whether the next one belongs to the same chain.
#[derive(Clone, Copy)]
pub struct Order {
    pub number: u32,
    pub linked: bool,
    pub action: Action,
}
