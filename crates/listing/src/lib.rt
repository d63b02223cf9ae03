// The listing of a book, written into the caller's buffer.
#![tactic(auto)]

ghost use Rattle.std.specs.Prelude.{◌≡◌, ℕ};
ghost use Rattle.meaning.specs.Given.{Journal};
ghost use Rattle.meaning.specs.Rules.{Policy};
ghost use Rattle.balances.specs.Books.{books_of};
ghost use Rattle.laws.specs.Steps.{Reads};
ghost use Rattle.image.specs.Image.{image_of};
ghost use Rattle.listing.specs.Reports.{Reports};

use balances::Balances;
use meaning::Refusal;

mod keys;
mod lines;
mod page;
mod sums;

// Writes the listing from the first byte on, or says that the buffer is too short and leaves it; the listing's length.
pub fn report(balances: &Balances, buffer: &mut [u8]) -> Result<usize, Refusal>
    ensures { (policy : Policy) (J : Journal) (T : ℕ) → Reads policy J → books_of balances.now ≡ image_of J T → Reports J T buffer.old result buffer.new }
{
    let len = lines::put_listing(balances, &mut []);
    if buffer.len() < len {
        return Err(Refusal::BufferTooShort);
    }
    Ok(lines::put_listing(balances, buffer))
}
