// An open chain borrows the tables. It takes legs, each on what the earlier ones left, and then it is kept, or its
// drop puts all of them back.
ghost use Rattle.std.specs.Prelude.{◌≡◌, [], is_some};
ghost use Rattle.balances.specs.Books.{books_of};
ghost use Rattle.balances.specs.Noted.{AtMoment};
ghost use Rattle.balances.specs.Undone.{legs_of, written_of, written_within, rolled_back, kept_or_back};

use crate::balances::Balances;
use crate::receipt::Receipt;

mod legs;

// Its legs are all taken at one moment.
pub struct Chain<'a> {
    balances: &'a mut Balances,
    moment: u64,
}

impl Balances {
    // Opens a chain at a moment: until it ends, the tables are its own.
    pub fn open_chain(&mut self, moment: u64) -> Chain<'_>
        ensures same { result.balances.ghost_name ≡ self.entry.ghost_name }
        ensures moment { result.moment ≡ moment }
        ensures books { books_of result.balances.now ≡ books_of self.old }
        ensures back { rolled_back result.balances.now ≡ books_of self.old }
        ensures legs { legs_of result.balances.now ≡ 0 }
        ensures written { written_of result.balances.now ≡ [] }
    {
        self.begin();
        Chain {
            balances: self,
            moment,
        }
    }
}

impl Drop for Chain<'_> {
    // Puts the legs back: accounts, reservations, highest number and queue stand as at the opening. What it asks holds of each
    // chain that was opened, but not of each value of the type: so a chain can't be forgotten, which would leave its legs.
    fn drop(self)
        requires { AtMoment self.moment (written_of self.balances.now) }
        ensures { books_of self.exit.0.now ≡ rolled_back self.entry.balances.now }
    {
        self.balances.unwind();
        let Chain {
            balances: _,
            moment: _,
        } = self;
    }
}

impl<'a> Chain<'a> {
    // The moment at which its legs are taken.
    pub fn moment(&self) -> u64
        ensures { result ≡ self.now.moment }
    {
        self.moment
    }

    // How many legs it has.
    pub fn legs(&self) -> usize
        ensures { result ≡ legs_of self.now.balances.now }
    {
        self.balances.notes.count()
    }

    // Keeps the legs, if a receipt has room for them; if not, puts them back. Gives the tables back either way.
    #[inline(always)]
    pub fn keep<const N: usize>(self) -> Option<Receipt<N>>
        ensures receipt { result ≡ written_within N self.entry.balances.now }
        ensures books { books_of self.exit.0.now ≡ kept_or_back (is_some result) self.entry.balances.now }
    {
        let Chain {
            balances,
            moment: _,
        } = self;
        balances.settle()
    }
}
