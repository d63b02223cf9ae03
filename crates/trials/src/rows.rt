// Rows of each of the two keys, put in out of order and taken out again, beside lists by hand; and
// a row of numbers.
ghost use Rattle.std.specs.Prelude.{◌≡◌};

use ordered::{CopyRow, Due, Line, Row};

fn due(deadline: u64, number: u32) -> Due {
    Due { deadline, number }
}

fn line(ledger: u16, label: &[u8; 8], number: u32) -> Line {
    Line {
        label: u64::from_be_bytes(*label),
        number,
        ledger,
    }
}

#[test]
fn a_row_of_deadlines(rt: HostRuntime) {
    let mut row: Row<Due, 6> = Row::new(due(0, 0));
    let mut plain: CopyRow<Due, 6> = CopyRow::new(due(0, 0));
    // The last one finds the row full.
    let keys = [
        due(60, 4),
        due(30, 9),
        due(1099511627776, 1),
        due(60, 2),
        due(30, 10),
        due(60, 4),
        due(5, 5),
    ];
    for key in keys {
        row.put(key);
        plain.put(key);
    }
    let all = [
        due(30, 9),
        due(30, 10),
        due(60, 2),
        due(60, 4),
        due(60, 4),
        due(1099511627776, 1),
    ];
    assert!(rt; row.as_slice() == all.as_slice());
    assert!(rt; plain.as_slice() == all.as_slice());
    // The first two are not there, though their deadlines and their numbers are.
    for key in [due(30, 4), due(61, 2), due(60, 4), due(30, 9)] {
        row.take_out(key);
        plain.take_out(key);
    }
    let left = [due(30, 10), due(60, 2), due(60, 4), due(1099511627776, 1)];
    assert!(rt; row.as_slice() == left.as_slice());
    assert!(rt; plain.as_slice() == left.as_slice());
    for key in [due(1099511627776, 1), due(30, 10), due(60, 4), due(60, 2)] {
        row.take_out(key);
        plain.take_out(key);
    }
    assert!(rt; row.as_slice().is_empty());
    assert!(rt; plain.as_slice().is_empty());
}

#[test]
fn a_row_of_lines(rt: HostRuntime) {
    let mut row: Row<Line, 6> = Row::new(line(0, b"        ", 0));
    let mut plain: CopyRow<Line, 6> = CopyRow::new(line(0, b"        ", 0));
    // The last one finds the row full.
    let keys = [
        line(12, b"SPRING  ", 4),
        line(7, b"MILL    ", 2),
        line(7, b"DAM1    ", 1),
        line(7, b"MILL    ", 2),
        line(7, b"DAM     ", 6),
        line(7, b"DAM     ", 5),
        line(1, b"A       ", 9),
    ];
    for key in keys {
        row.put(key);
        plain.put(key);
    }
    let all = [
        line(7, b"DAM     ", 5),
        line(7, b"DAM     ", 6),
        line(7, b"DAM1    ", 1),
        line(7, b"MILL    ", 2),
        line(7, b"MILL    ", 2),
        line(12, b"SPRING  ", 4),
    ];
    assert!(rt; row.as_slice() == all.as_slice());
    assert!(rt; plain.as_slice() == all.as_slice());
    // The first three are not there: each differs in one part from a key that is.
    let out = [
        line(8, b"DAM     ", 5),
        line(7, b"DAMS    ", 1),
        line(12, b"SPRING  ", 5),
        line(7, b"MILL    ", 2),
        line(7, b"DAM     ", 5),
    ];
    for key in out {
        row.take_out(key);
        plain.take_out(key);
    }
    let left = [
        line(7, b"DAM     ", 6),
        line(7, b"DAM1    ", 1),
        line(7, b"MILL    ", 2),
        line(12, b"SPRING  ", 4),
    ];
    assert!(rt; row.as_slice() == left.as_slice());
    assert!(rt; plain.as_slice() == left.as_slice());
    for key in left {
        row.take_out(key);
        plain.take_out(key);
    }
    assert!(rt; row.as_slice().is_empty());
    assert!(rt; plain.as_slice().is_empty());
}

// A copy stays as it is when a key is taken out of the other.
#[test]
fn a_copy_of_a_row(rt: HostRuntime) {
    let mut row: CopyRow<Due, 6> = CopyRow::new(due(0, 0));
    row.put(due(60, 4));
    let copy = row;
    row.take_out(due(60, 4));
    assert!(rt; row.as_slice().is_empty());
    assert!(rt; copy.as_slice() == [due(60, 4)].as_slice());
}

// What a caller learns by a row's value: a push that is taken back leaves the row that it was.
fn push_and_pop(row: &mut Row<u32, 4>, item: u32)
    ensures { row.new ≡ row.old }
{
    if !row.is_full() {
        row.push(item);
        row.pop();
    }
}

// The same of a copy of its items: it is the other row.
fn copied(from: &Row<u32, 4>) -> Row<u32, 4>
    ensures { result ≡ from.now }
{
    let mut row = Row::new(0);
    row.copy_from(from);
    row
}

#[test]
fn a_row_of_numbers(rt: HostRuntime) {
    let mut row: Row<u32, 4> = Row::new(0);
    assert!(rt; row.as_slice().is_empty());
    assert_eq!(rt; row.pop(), None);
    push_and_pop(&mut row, 1);
    assert_eq!(rt; row.len(), 0);
    for item in [5, 6, 7] {
        row.push(item);
    }
    push_and_pop(&mut row, 1);
    assert_eq!(rt; row.len(), 3);
    assert!(rt; !row.is_full());
    row.push(8);
    row.push(9);
    push_and_pop(&mut row, 1);
    assert!(rt; row.is_full());
    assert!(rt; row.as_slice() == [5, 6, 7, 8].as_slice());
    row.set(1, 10);
    row.change(2, |item| *item = 12);
    assert_eq!(rt; row.get(1), Some(10));
    assert_eq!(rt; row.pop(), Some(8));
    // The fourth place is there, and holds no item; a fifth is not.
    for place in [3, 4] {
        assert_eq!(rt; row.get(place), None);
        row.set(place, 11);
        row.change(place, |item| *item = 13);
    }
    row.truncate(5);
    let mut other = copied(&row);
    assert!(rt; other.as_slice() == [5, 10, 12].as_slice());
    row.truncate(1);
    assert!(rt; row.as_slice() == [5].as_slice());
    other.copy_from(&row);
    assert!(rt; other.as_slice() == [5].as_slice());
}
