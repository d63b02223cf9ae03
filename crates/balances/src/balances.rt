// The tables of a book, and what an open chain notes of them. Their functions stand in modules below, since definitions name this struct.
ghost use Rattle.balances.specs.Contents.{Few, Fit};
ghost use Rattle.balances.specs.Noted.{Short, noted};
ghost use Rattle.balances.specs.Shown.{shown};

use crate::notes::Notes;
use crate::plain::Tables;

mod calls;
mod legs;

#[derive(Clone, Copy)]
pub struct Balances {
    pub(crate) tables: Tables,
    pub(crate) notes: Notes,
    ghost few: { Few (shown tables) },
    ghost fit: { Fit (shown tables) },
    ghost short: { Short (noted notes) },
}
