// One call of a script.
ghost use Rattle.std.specs.Prelude.{◌≡◌, ◌≤◌, Ok, IfOk, take};
ghost use Rattle.scripts.specs.Limits.{most_orders};
ghost use Rattle.scripts.specs.Readers.{with_list, behind, Within};
ghost use Rattle.scripts.specs.Forms.{then_do, orders_at, batch_at, call_at, with_next, at_most, opening_of, action_of, order_of};

use crate::bad::Bad;
use crate::reader::{Reader, bytes_at};
use meaning::{Action, Opening, Order};

// How long the lists of a call may be at most: a batch's orders, their answers, and the numbers of what lapses.
pub const ORDERS: usize = 64;

pub const ANSWERS: usize = 64;

pub const LAPSES: usize = 300;

// The longest buffer of a report. The listing of every book fits: no account's line has more than 98 bytes, no sum line
// more than 91, and there are at most 64 of each.
pub const BYTES: usize = 12_096;

#[derive(Clone, Copy)]
pub enum Step {
    Open(Opening),
    // So many orders, and so many places for their answers.
    Run { orders: usize, answers: usize },
    Move { moment: u64, lapses: usize },
    Report(usize),
    Account(u32),
    Reservation(u32),
    Moment,
    Reading,
}

// What stands in a list of orders before any is read.
pub const NO_ORDER: Order = Order {
    number: 0,
    linked: false,
    action: Action::Void { reservation: 0 },
};

// The length of a list, where it is no longer than allowed.
fn at_most(most: usize, length: usize) -> Result<usize, Bad>
    ensures length { result ≡ at_most most length }
    ensures within { IfOk result (λ n. n ≤ most) }
{
    if length > most {
        return Err(Bad::List);
    }
    Ok(length)
}

fn opening_of(bytes: &[u8; 23]) -> Opening
    ensures { result ≡ opening_of bytes.now }
{
    Opening {
        number: u32::from_be_bytes(bytes_at(bytes, 0)),
        ledger: u16::from_be_bytes(bytes_at(bytes, 4)),
        class: bytes[6],
        limit: u64::from_be_bytes(bytes_at(bytes, 7)),
        label: u64::from_be_bytes(bytes_at(bytes, 15)),
    }
}

fn action_of(kind: u8, first: u32, second: u32, amount: u64, duration: u32) -> Result<Action, Bad>
    ensures { result ≡ action_of kind first second amount duration }
{
    match kind {
        2 => Ok(Action::Transfer {
            debit: first,
            credit: second,
            amount,
        }),
        3 => Ok(Action::Reserve {
            debit: first,
            credit: second,
            amount,
            duration,
        }),
        4 => Ok(Action::Post {
            reservation: first,
            amount,
        }),
        5 => Ok(Action::Void { reservation: first }),
        _ => Err(Bad::Order),
    }
}

fn order_of(bytes: &[u8; 26]) -> Result<Order, Bad>
    ensures { result ≡ order_of bytes.now }
{
    if bytes[4] > 1 {
        return Err(Bad::Order);
    }
    Ok(Order {
        number: u32::from_be_bytes(bytes_at(bytes, 0)),
        linked: bytes[4] == 1,
        action: action_of(
            bytes[5],
            u32::from_be_bytes(bytes_at(bytes, 6)),
            u32::from_be_bytes(bytes_at(bytes, 10)),
            u64::from_be_bytes(bytes_at(bytes, 14)),
            u32::from_be_bytes(bytes_at(bytes, 22)),
        )?,
    })
}

// The next order.
fn read_order(reader: &mut Reader<'_>) -> Result<Order, Bad>
    ensures order { result ≡ with_next 26 reader.old.rest.now order_of }
    ensures rest { reader.new.rest.now ≡ behind 26 reader.old.rest.now }
{
    let bytes = reader.take()?;
    order_of(&bytes)
}

// So many orders, to the front of a list.
fn read_orders(reader: &mut Reader<'_>, list: &mut [Order; ORDERS], count: usize) -> Result<(), Bad>
    requires { count ≤ most_orders }
    ensures { then_do result (λ _. Ok (take count list.new, reader.new.rest.now)) ≡ orders_at count reader.old.rest.now }
{
    for place in 0..count {
        list[place] = read_order(reader)?;
    }
    Ok(())
}

fn read_batch(reader: &mut Reader<'_>, list: &mut [Order; ORDERS]) -> Result<Step, Bad>
    ensures batch { then_do result (λ s. Ok (with_list list.new s, reader.new.rest.now)) ≡ batch_at reader.old.rest.now }
    ensures within { IfOk result Within }
{
    let orders = at_most(ORDERS, usize::from(reader.u8()?))?;
    let answers = at_most(ANSWERS, usize::from(reader.u8()?))?;
    read_orders(reader, list, orders)?;
    Ok(Step::Run { orders, answers })
}

// The next call; the orders of a batch stand at the front of the list then.
pub fn read_step(reader: &mut Reader<'_>, list: &mut [Order; ORDERS]) -> Result<Step, Bad>
    ensures call { then_do result (λ s. Ok (with_list list.new s, reader.new.rest.now)) ≡ call_at reader.old.rest.now }
    ensures within { IfOk result Within }
{
    match reader.u8()? {
        1 => Ok(Step::Open(opening_of(&reader.take()?))),
        2 => read_batch(reader, list),
        3 => {
            let bytes: [u8; 10] = reader.take()?;
            Ok(Step::Move {
                moment: u64::from_be_bytes(bytes_at(&bytes, 0)),
                lapses: at_most(LAPSES, usize::from(u16::from_be_bytes(bytes_at(&bytes, 8))))?,
            })
        },
        4 => Ok(Step::Report(at_most(BYTES, usize::from(u16::from_be_bytes(reader.take()?)))?)),
        5 => Ok(Step::Account(u32::from_be_bytes(reader.take()?))),
        6 => Ok(Step::Reservation(u32::from_be_bytes(reader.take()?))),
        7 => Ok(Step::Moment),
        8 => Ok(Step::Reading),
        _ => Err(Bad::Call),
    }
}
