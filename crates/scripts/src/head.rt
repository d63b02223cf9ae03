// The head of a script: its version, the journal, the policy, and how much of the strip's memory is in use.
ghost use Rattle.std.specs.Prelude.{◌≡◌, ◌≤◌, length};
ghost use Rattle.scripts.specs.Forms.{journal_kind, policy_kind, head_of, head_at};
ghost use Rattle.scripts.specs.Readers.{behind};

use crate::bad::Bad;
use crate::plain::{PlainPolicy, plain_policy};
use crate::reader::{Reader, bytes_at};

const VERSION: u8 = 1;

#[derive(Clone, Copy)]
pub enum JournalKind {
    Roll,
    Strip,
    RollAndStrip,
    StripAndRoll,
}

#[derive(Clone, Copy)]
pub enum PolicyKind {
    Plain(PlainPolicy),
    ByClass {
        below: PlainPolicy,
        class: u8,
        from: PlainPolicy,
    },
}

#[derive(Clone, Copy)]
pub struct Head {
    pub journal: JournalKind,
    pub policy: PolicyKind,
    pub used: usize,
}

fn journal_kind(number: u8) -> Result<JournalKind, Bad>
    ensures { result ≡ journal_kind number }
{
    match number {
        0 => Ok(JournalKind::Roll),
        1 => Ok(JournalKind::Strip),
        2 => Ok(JournalKind::RollAndStrip),
        3 => Ok(JournalKind::StripAndRoll),
        _ => Err(Bad::Journal),
    }
}

fn policy_kind(number: u8, class: u8, below: u8, from: u8) -> Result<PolicyKind, Bad>
    ensures { result ≡ policy_kind number class below from }
{
    if number != 3 {
        return Ok(PolicyKind::Plain(plain_policy(number)?));
    }
    Ok(PolicyKind::ByClass {
        below: plain_policy(below)?,
        class,
        from: plain_policy(from)?,
    })
}

fn head_of(bytes: &[u8; 14]) -> Result<Head, Bad>
    ensures { result ≡ head_of bytes.now }
{
    if bytes[0] != VERSION {
        return Err(Bad::Head);
    }
    Ok(Head {
        journal: journal_kind(bytes[1])?,
        policy: policy_kind(bytes[2], bytes[3], bytes[4], bytes[5])?,
        used: u64::from_be_bytes(bytes_at(bytes, 6)) as usize,
    })
}

pub fn read_head(reader: &mut Reader<'_>) -> Result<Head, Bad>
    ensures head { result ≡ head_at reader.old.rest.now }
    ensures rest { reader.new.rest.now ≡ behind 14 reader.old.rest.now }
{
    let bytes = reader.take().map_err(|_| Bad::Head)?;
    head_of(&bytes)
}
