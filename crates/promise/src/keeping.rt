// What every book keeps.
ghost use Rattle.std.specs.Prelude.{◌≡◌};
ghost use Rattle.meaning.specs.Reading.{reading as reading_of};
ghost use Rattle.steps.specs.Written.{journal_of};
ghost use Rattle.book.specs.States.{policy_of};
ghost use Rattle.promise.specs.Kept.{Keeps};

use book::Book;
use journal::Journal;
use meaning::Reading;
use policy::Policy;

// How the reading of a book's journal ended; where it went through, the book keeps all that a book keeps.
pub fn keeps<J: Journal, P: Policy>(book: &Book<J, P>) -> Reading
    ensures reading { result ≡ reading_of (policy_of J.Journal P.Policy book.now) (journal_of J.Journal book.now.journal) }
    ensures kept { result ≡ Ok tt → Keeps J.Journal P.Policy book.now }
{
    book.reading()
}
