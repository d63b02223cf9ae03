use crate::counted::Counted;
use crate::leaf::Leaf;
use journal::{Journal, Mirror, Roll, Strip};
use layout::{decode, encode};
use meaning::{Content, Entry, Record};
use std::process::Abort;
use std::test::Fail;

// The record of transfer 7, unlinked, from account 1 to account 2, of 900 litres at moment 60.
const TRANSFER: &[u8; 48] =
    b"\x00\x2e\x02\x00\x00\x00\x00\x07\x00\x00\x00\x01\x00\x00\x00\x02\x00\x00\x00\x00\x00\x00\x03\x84\x00\x00\x00\x00\x00\x00\x00\x3c\x00\x00\x00\x00\x00\x00\x00\x00\x00\x00\x00\x00\x00\x00\x00\x00";

fn transfer() -> Result<Entry, Fail> {
    let fields = Record {
        number: 7,
        linked: false,
        moment: 60,
        content: Content::Transfer {
            debit: 1,
            credit: 2,
            amount: 900,
        },
    };
    Entry::new(fields).ok_or_else(|| Fail::new("not sound"))
}

// The memory of a strip of three records.
fn three_records() -> [u8; 145] {
    let mut memory = [1; 145];
    for record in memory[1..].chunks_exact_mut(48) {
        record.copy_from_slice(TRANSFER);
    }
    memory
}

// Appends an entry until it is refused, at most a thousand times, and says how often it was taken.
fn fill<J: Journal>(journal: &mut J, entry: Entry) -> u64 {
    (0..1000)
        .take_while(|_| journal.append(entry).is_ok())
        .count() as u64
}

// What a strip made over the memory counts and has to spare.
fn check_made(rt: &impl Abort, memory: &mut [u8], used: usize, count: u64, spare: u64) {
    let strip = Strip::make(memory, used);
    assert_eq!(rt; strip.count(), count);
    assert_eq!(rt; strip.spare(), spare);
}

#[test]
fn a_record_by_its_bytes(rt: HostRuntime) -> Result<(), Fail> {
    let bytes = encode(&transfer()?);
    assert_eq!(rt; bytes, *TRANSFER);
    let bytes: &[u8] = TRANSFER;
    let entry = decode(bytes).ok_or_else(|| Fail::new("not read"))?;
    assert_eq!(rt; entry.fields.number, 7);
    assert!(rt; decode(&bytes[0..47]).is_none());
    Ok(())
}

#[test]
fn a_strip_that_is_cut(rt: HostRuntime) {
    for used in 1..146 {
        let mut memory = three_records();
        let whole = (used as u64 - 1) / 48;
        check_made(&rt, &mut memory, used, whole, 3 - whole);
        check_made(&rt, &mut memory[0..used], 999, whole, 0);
    }
    // length, used bytes; count, spare
    let made = [
        (0, 0, 0, 0),
        (48, 0, 0, 0),
        (49, 0, 0, 1),
        (145, 0, 0, 3),
        (145, 1, 0, 3),
        (145, 60, 1, 2),
        (145, 999, 3, 0),
    ];
    for (len, used, count, spare) in made {
        let mut memory = three_records();
        check_made(&rt, &mut memory[0..len.min(145)], used, count, spare);
    }
}

#[test]
fn a_strip_with_one_byte_wrong(rt: HostRuntime) {
    // a place in the second record, and a byte that breaks the field there
    let wrong = [
        (0, 1),
        (1, 45),
        (2, 0),
        (2, 6),
        (3, 2),
        (7, 0),
        (11, 0),
        (15, 0),
        (16, 1),
        (26, 1),
        (39, 1),
        (47, 1),
    ];
    for (at, byte) in wrong {
        let mut memory = three_records();
        if at < 48 {
            memory[49 + at] = byte;
        }
        check_made(&rt, &mut memory, 145, 1, 2);
    }
    for version in [0, 2, 255] {
        let mut memory = three_records();
        memory[0] = version;
        check_made(&rt, &mut memory, 145, 0, 0);
        assert_eq!(rt; memory[0], version);
    }
}

#[test]
fn an_append_writes_its_record(rt: HostRuntime) -> Result<(), Fail> {
    let entry = transfer()?;
    let mut memory = [9; 120];
    let mut strip = Strip::make(&mut memory, 0);
    assert_eq!(rt; fill(&mut strip, entry), 2);
    assert_eq!(rt; strip.used(), 97);
    let memory = strip.give_back();
    assert!(rt; memory.len() == 120);
    assert_eq!(rt; memory[0], 1);
    for record in memory[1..97].chunks_exact(48) {
        assert!(rt; record == TRANSFER.as_slice());
    }
    assert_eq!(rt; memory[97], 9);
    check_made(&rt, memory, 97, 2, 0);
    Ok(())
}

#[test]
fn journals_over_journals(rt: HostRuntime) -> Result<(), Fail> {
    let entry = transfer()?;
    let mut memory = [0; 145];
    let counted = Counted {
        journal: Roll::new(),
        asked: 0,
    };
    let mut mirror = Mirror::new(Strip::make(&mut memory, 0), counted);
    assert_eq!(rt; mirror.spare(), 3);
    assert_eq!(rt; fill(&mut mirror, entry), 3);
    assert!(rt; mirror.entry_at(2).is_some() && mirror.entry_at(3).is_none());
    let (strip, counted) = mirror.apart();
    assert_eq!(rt; strip.used(), 145);
    assert_eq!(rt; counted.asked, 3);
    assert_eq!(rt; counted.spare(), 253);
    let mut roll = Roll::new();
    assert_eq!(rt; fill(&mut roll, entry), 256);
    assert_eq!(rt; roll.count(), 256);
    Ok(())
}

// A journal that is kept in a row, beside a strip: each takes what the other does.
#[test]
fn a_row_beside_a_strip(rt: HostRuntime) -> Result<(), Fail> {
    let entry = transfer()?;
    let mut memory = [0; 145];
    let mut mirror = Mirror::new(Leaf::new(entry), Strip::make(&mut memory, 0));
    assert_eq!(rt; mirror.spare(), 3);
    assert_eq!(rt; fill(&mut mirror, entry), 3);
    assert_eq!(rt; mirror.count(), 3);
    assert!(rt; mirror.entry_at(2).is_some() && mirror.entry_at(3).is_none());
    let mut leaf = Leaf::new(entry);
    assert_eq!(rt; fill(&mut leaf, entry), 8);
    assert!(rt; leaf.entry_at(8).is_none());
    Ok(())
}
