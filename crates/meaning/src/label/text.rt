// Labels from numbers and from text.
ghost use Rattle.std.specs.Prelude.{◌≡◌, Bool, true, false, take};
ghost use Rattle.meaning.specs.Labels.{letter, filling, lettered, is_label, filled};
ghost use Rattle.meaning.specs.Made.{label_of, label_named};

use super::Label;

fn is_letter(byte: u8) -> bool
    ensures { result ≡ letter byte }
{
    matches!(byte, b'A'..=b'Z' | b'0'..=b'9' | b'-')
}

// Nothing but spaces.
fn is_filling(bytes: &[u8]) -> bool
    ensures { result ≡ filling bytes.now }
{
    bytes.iter().all(|byte| *byte == b' ')
}

// Letters, and then nothing but spaces.
fn is_lettered(bytes: &[u8]) -> bool
    ensures { result ≡ lettered bytes.now }
{
    match bytes {
        [byte, rest @ ..] if is_letter(*byte) => is_lettered(rest),
        _ => is_filling(bytes),
    }
}

// Whether a number is a label.
pub fn is_label(code: u64) -> bool
    ensures { result ≡ is_label code }
{
    let bytes = code.to_be_bytes();
    is_letter(bytes[0]) && is_lettered(&bytes[1..8])
}

// The first eight bytes of a text, filled with spaces where there are fewer.
fn fill(text: &[u8]) -> [u8; 8]
    ensures { result ≡ filled (take 8 text.now) }
{
    let mut bytes = [b' '; 8];
    let len = text.len().min(8);
    bytes[0..len].copy_from_slice(&text[0..len]);
    bytes
}

impl Label {
    // Of a number that is no label there is no more to say, so this is no `TryFrom`.
    pub fn new(code: u64) -> Option<Label>
        ensures { result ≡ label_of code }
    {
        if is_label(code) {
            Some(Label { code })
        } else {
            None
        }
    }

    // The label of a text of at most 8 bytes. There is no more to say of another text, so this is no `FromStr`.
    pub fn parse(text: &str) -> Option<Label>
        ensures { result ≡ label_named text.now }
    {
        let bytes = text.as_bytes();
        if bytes.len() > 8 {
            return None;
        }
        Label::new(u64::from_be_bytes(fill(bytes)))
    }

    // Stands in a table's place that holds no account yet.
    pub fn unused() -> Label
        ensures { result.code ≡ 0x2d20_2020_2020_2020 }
    {
        Label {
            code: 0x2d20_2020_2020_2020,
        }
    }
}
