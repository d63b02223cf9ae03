// A text, written byte by byte into a buffer as far as it has room.
ghost use Rattle.std.specs.Prelude.{◌≡◌, [], ◌∷◌, decimal};
ghost use Rattle.meaning.specs.Listing.{fields, line_bytes, letters_in};
ghost use Rattle.listing.specs.Pages.{new_page, with_bytes};

// What fills a label to eight bytes.
const FILLING: u8 = b' ';

// The caller lends the buffer; `next` is where the next byte belongs, in the buffer or behind its end.
#[derive(Drop)]
pub(crate) struct Page<'a> {
    bytes: &'a mut [u8],
    next: usize,
}

impl<'a> Page<'a> {
    // An empty text.
    pub(crate) fn new(bytes: &'a mut [u8]) -> Page<'a>
        ensures { result ≡ new_page bytes.entry }
    {
        Page { bytes, next: 0 }
    }

    // How long the text is, whether or not there was room for it.
    pub(crate) fn len(&self) -> usize
        ensures { result ≡ self.now.next }
    {
        self.next
    }

    // A byte behind the buffer's end is only counted. `get_mut` needs as many lines, and a proof of its own.
    fn byte(&mut self, byte: u8)
        ensures { self.new ≡ with_bytes (byte ∷ []) self.old }
    {
        if self.next < self.bytes.len() {
            self.bytes[self.next] = byte;
        }
        self.next = self.next.saturating_add(1);
    }

    // A number in decimal digits, without leading zeros.
    // By hand, since the contract of `write!` does not say when it answers `Ok`.
    fn decimal(&mut self, number: u64)
        ensures { self.new ≡ with_bytes (decimal number) self.old }
    {
        if number >= 10 {
            self.decimal(number / 10);
        }
        self.byte(b'0' + (number % 10) as u8);
    }

    // A space and a number, for each of the numbers.
    fn fields(&mut self, numbers: &[u64])
        ensures { self.new ≡ with_bytes (fields numbers.now) self.old }
    {
        for number in numbers {
            self.byte(b' ');
            self.decimal(*number);
        }
    }

    // The letters of a name, without its filling.
    fn letters(&mut self, name: &[u8])
        ensures { self.new ≡ with_bytes (letters_in name.now) self.old }
    {
        for byte in name {
            if *byte != FILLING {
                self.byte(*byte);
            }
        }
    }

    // `7 MILL 2 0 250 0 900`
    pub(crate) fn line(&mut self, ledger: u16, name: &[u8], numbers: &[u64])
        ensures { self.new ≡ with_bytes (line_bytes ledger (letters_in name.now) numbers.now) self.old }
    {
        self.decimal(u64::from(ledger));
        self.byte(b' ');
        self.letters(name);
        self.fields(numbers);
        self.byte(b'\n');
    }
}
