// The keys of the listing's lines, one after the other. Their place is counted here, since the balances hand out plain
// values, a key for its place, and no slice of their tables.
ghost use Rattle.std.specs.Prelude.{◌≡◌};
ghost use Rattle.std.specs.Iterator.{YieldsFirst, item_count};
ghost use Rattle.balances.specs.Books.{books_of};
ghost use Rattle.listing.specs.Keys.{to_come};
ghost use Rattle.listing.specs.Lines.{ends_in};

use balances::Balances;
use ordered::Line;

#[derive(Drop)]
pub(crate) struct Keys<'a> {
    balances: &'a Balances,
    place: usize,
}

impl<'a> Keys<'a> {
    pub(crate) fn new(balances: &'a Balances) -> Keys<'a>
        ensures { to_come result ≡ (books_of balances.now).lines }
    {
        Keys { balances, place: 0 }
    }

    // Whether no key of the ledger comes next.
    #[tactic(auto, using(crate::proofs::Coming::next_is, crate::proofs::Coming::none_left))]
    pub(crate) fn ends(&self, ledger: u16) -> bool
        ensures { result ≡ ends_in ledger (to_come self.now) }
    {
        self.balances
            .line_at(self.place)
            .is_none_or(|key| key.ledger != ledger)
    }
}

impl Iterator for Keys<'_> {
    type Item = Line;

    ghost next_gives = { YieldsFirst to_come };

    ghost remaining = { item_count to_come };

    #[tactic(auto, using(crate::proofs::Coming::next_is, crate::proofs::Coming::none_left))]
    fn next(&mut self) -> Option<Line> {
        let key = self.balances.line_at(self.place)?;
        self.place += 1;
        Some(key)
    }
}
