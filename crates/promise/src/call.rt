// A call, as a value.
ghost use Rattle.std.specs.Prelude.{◌≡◌};
ghost use Rattle.promise.specs.Spans.{inside};

use meaning::Opening;

// The places of a list from one to before another. A call is a plain value, and std's `Range` can't be copied.
#[derive(Clone, Copy)]
pub struct Span {
    pub from: usize,
    pub to: usize,
}

impl Span {
    // Whether the places are those of a list of this length.
    pub fn is_within(self, length: usize) -> bool
        ensures { result ≡ inside self length }
    {
        self.from <= self.to && self.to <= length
    }
}

// What is asked of a book, as a value: the same calls are made on two books, and contracts speak of lists of them.
// Lists and buffers are spans of those on the desk.
#[derive(Clone, Copy)]
pub enum Ask {
    Open(Opening),
    Run { orders: Span, answers: Span },
    Move { moment: u64, lapses: Span },
    Report(Span),
    Account(u32),
    Reservation(u32),
    Moment,
    Reading,
}

// A call, and the place on the desk for what it is told.
#[derive(Clone, Copy)]
pub struct Call {
    pub at: usize,
    pub ask: Ask,
}
