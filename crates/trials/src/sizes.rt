ghost use Rattle.std.specs.Prelude.{◌≤◌, length};
ghost use Rattle.meaning.specs.Limits.{most_accounts, most_reservations, most_legs};
ghost use Rattle.balances.specs.Books.{books_of};
ghost use Rattle.balances.specs.Undone.{legs_of};

use balances::Balances;
use meaning::{Account, Label, Limit, Totals};
use std::mem::size_of;

// What a crate above the tables learns of any value of them: that nothing in them passes its room.
fn nothing_past_its_room(tables: &Balances)
    ensures accounts { length (books_of tables.now).rows ≤ most_accounts }
    ensures lines { length (books_of tables.now).lines ≤ most_accounts }
    ensures reservations { length (books_of tables.now).held ≤ most_reservations }
    ensures queue { length (books_of tables.now).queue ≤ most_reservations }
    ensures legs { legs_of tables.now ≤ most_legs }
{
    let _ = tables;
}

#[test]
fn tables_within_32_kib(rt: HostRuntime) {
    assert_eq!(rt; size_of::<Balances>(), 24760);
    assert!(rt; size_of::<Balances>() <= 32768);
    nothing_past_its_room(&Balances::new());
}

// A copy stays as it is when an account is opened in the other.
#[test]
fn a_copy_of_the_tables(rt: HostRuntime) {
    let mut tables = Balances::new();
    let copy = tables;
    tables.open(Account {
        number: 1,
        ledger: 1,
        class: 1,
        limit: Limit::zero(),
        label: Label::unused(),
        totals: Totals::zero(),
    });
    assert_eq!(rt; tables.opened(), 1);
    assert_eq!(rt; copy.opened(), 0);
}
