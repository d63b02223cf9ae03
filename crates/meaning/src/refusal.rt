// Why a call or a leg is turned down.
ghost use Rattle.std.specs.Prelude.{◌≡◌};
ghost use Rattle.meaning.specs.Numbers.{number_of};

// Each case has the number by which formats and users know it.
#[derive(Clone, Copy, Debug, PartialEq, Eq)]
pub enum Refusal {
    // The journal could not be read through, so the book takes no calls.
    ReadingStopped = 10,
    // Another leg of the same chain was refused.
    ChainRefused = 11,
    // The batch or the journal ends inside a chain.
    ChainUnfinished = 12,
    // The chain has more than 16 legs.
    ChainTooLong = 13,
    // The chain has more legs than the journal has spare.
    ChainOverSpare = 14,
    // The answer list is shorter than the orders.
    AnswersTooShort = 15,
    // An entry's moment differs from that of the chain it stands in.
    ChainMoment = 16,
    // The order's number is 0 or not above the highest one taken.
    OrderNumber = 21,
    // The amount is 0 or above the top.
    Amount = 22,
    // No account has the debit account's number.
    DebitUnknown = 23,
    // No account has the credit account's number.
    CreditUnknown = 24,
    // Debit and credit account are the same.
    SameAccount = 25,
    // The two accounts are in different ledgers.
    LedgersDiffer = 26,
    // A side of an account would pass the top.
    TopPassed = 27,
    // The policy does not admit the debit account after the leg.
    DebitNotAdmitted = 28,
    // The policy does not admit the credit account after the leg.
    CreditNotAdmitted = 29,
    // The book holds 256 reservations already.
    ReservationsFull = 30,
    // No reservation has this number.
    ReservationUnknown = 31,
    // The reservation is posted.
    AlreadyPosted = 32,
    // The reservation is voided.
    AlreadyVoided = 33,
    // The reservation has lapsed.
    AlreadyLapsed = 34,
    // The posted amount is 0 or above the reserved one.
    PostAmount = 35,
    // The account's number is 0 or taken.
    AccountNumber = 41,
    // The ledger is 0.
    Ledger = 42,
    // The limit is above the top.
    Limit = 43,
    // The label is not 1 to 8 letters, digits or hyphens, filled with spaces.
    LabelMalformed = 44,
    // The book holds 64 accounts already.
    AccountsFull = 45,
    // The journal has no spare.
    JournalFull = 46,
    // The policy does not admit an account with four zeros.
    AccountNotAdmitted = 47,
    // The moment is above the last one.
    MomentTooLate = 51,
    // The moment is below the book's.
    MomentEarlier = 52,
    // The lapse list is shorter than the number of reservations that fall due.
    LapsesTooShort = 53,
    // The buffer is shorter than the listing.
    BufferTooShort = 56,
}

impl Refusal {
    pub fn number(self) -> u8
        ensures { result ≡ number_of self }
    {
        self as u8
    }
}
