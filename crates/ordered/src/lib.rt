// Keys in order in the first places of a slice, and rows of a fixed length.
#![tactic(auto)]

ghost use Rattle.std.specs.Prelude.{◌≡◌, ◌+◌, ◌-◌, ◌<◌, ◌≤◌, Bool, true, false, ◌++◌, length, take, drop, not, position};
ghost use Rattle.std.specs.List.{insert, remove, prefix_len};
ghost use Rattle.meaning.specs.Basics.{put as put_in};
ghost use Rattle.ordered.specs.Laws.{LawfulOrder, StaysInOrder, AnyOrderIn, TakenOut, TestsPassThrough, FrontsPass};
ghost use Rattle.ordered.specs.Keyed.{KeysAgree};
ghost use Rattle.ordered.specs.Orders.{due_before, line_before};
ghost use Rattle.ordered.specs.Rows.{apart, without, row_with, count_with, row_without};

pub mod copy_row;
pub mod due;
pub mod line;
pub mod row;

pub use copy_row::CopyRow;
pub use due::Due;
pub use line::Line;
pub use row::Row;

// A value by which a row is kept in order.
// Not std's `Ord`: there different keys may compare as equal, and the laws of rows need equals to be the same.
pub trait Key: Copy {
    ghost before: { Self → Self → Bool };

    fn is_before(&self, other: &Self) -> bool
        ensures { result ≡ before self.now other.now };

    ghost irreflexive: { (x : Self) → before x x ≡ false };

    ghost transitive: { (x y z : Self) → before x y ≡ true → before y z ≡ true → before x z ≡ true };

    ghost total: { (x y : Self) → before x y ≡ false → before y x ≡ false → x ≡ y };
}

// The place of `key` among `keys`: behind all at the front that come no later.
fn place<K: Key>(keys: &[K], key: &K) -> usize
    ensures within { result ≤ length keys.now }
    ensures place { result ≡ prefix_len (λ k. not (K.before key.now k)) keys.now }
{
    keys.iter().take_while(|k| !key.is_before(k)).count()
}

// Whether they are two different keys.
fn differ<K: Key>(a: &K, b: &K) -> bool
    ensures { result ≡ apart K.before a.now b.now }
{
    a.is_before(b) || b.is_before(a)
}

// Where `key` first stands among `keys`.
fn find<K: Key>(keys: &[K], key: &K) -> Option<usize>
    ensures { result ≡ position (λ k. not (apart K.before key.now k)) keys.now }
{
    keys.iter().position(|k| !differ(key, k))
}

// Puts `key` at place `i` of the first `len`, and moves those behind it up by one.
fn insert_at<K: Copy>(row: &mut [K], len: usize, i: usize, key: K)
    requires room { len < length row.old }
    requires within { i ≤ len }
    ensures row { row.new ≡ insert (take len row.old) i key ++ drop (len + 1) row.old }
    ensures front { take (len + 1) row.new ≡ insert (take len row.old) i key }
{
    row.copy_within(i..len, i + 1);
    row[i] = key;
}

// Takes place `i` out of the first `len`, and moves those behind it down by one.
fn remove_at<K: Copy>(row: &mut [K], len: usize, i: usize)
    requires fits { len ≤ length row.old }
    requires within { i < len }
    ensures count { length (remove (take len row.old) i) ≡ len - 1 }
    ensures row { row.new ≡ remove (take len row.old) i ++ drop (len - 1) row.old }
    ensures front { take (len - 1) row.new ≡ remove (take len row.old) i }
{
    row.copy_within(i + 1..len, i);
}

// How many of the first `len` places the row has.
fn held<K: Copy>(row: &[K], len: usize) -> usize
    ensures fewer { result ≤ len }
    ensures within { result ≤ length row.now }
    ensures same { take result row.now ≡ take len row.now }
    ensures whole { take result row.now ++ drop result row.now ≡ row.now }
{
    len.min(row.len())
}

// The two functions on a slice are there for whoever keeps keys in memory of their own; the rows call them too.

// Puts `key` at its place among the first `len` of the row, behind its equals, and says how many there are then.
// Where the row is full nothing changes.
pub fn put<K: Key>(row: &mut [K], len: usize, key: K) -> usize
    ensures count { result ≡ count_with len row.old }
    ensures row { row.new ≡ row_with K.before key len row.old }
    ensures front { len < length row.old → take result row.new ≡ put_in K.before key (take len row.old) }
{
    if len >= row.len() {
        return len;
    }
    let i = place(&row[..len], &key);
    insert_at(row, len, i, key);
    len + 1
}

// Takes the first `key` out of the first `len` of the row, and says how many are left of them.
// Those behind it move down by one, and the last place keeps what it held. Where it is not among them nothing changes.
pub fn take_out<K: Key>(row: &mut [K], len: usize, key: K) -> usize
    ensures fewer { result ≤ len }
    ensures count { result ≡ length (without K.before key (take len row.old)) }
    ensures row { row.new ≡ row_without K.before key len row.old }
    ensures front { take result row.new ≡ without K.before key (take len row.old) }
{
    let end = held(row, len);
    match find(&row[..end], &key) {
        Some(i) => {
            remove_at(row, end, i);
            end - 1
        }
        None => end,
    }
}

// What rows in order keep, whatever the key: five laws.
pub fn rows_stand<K: Key>()
    ensures order { StaysInOrder K.before }
    ensures entry { AnyOrderIn K.before }
    ensures taken { TakenOut K.before }
    ensures tests { TestsPassThrough K.before }
    ensures fronts { FrontsPass K.before }
{}

// What the two keys keep: each order is lawful, and both are those of the book's meaning.
pub fn keys_stand()
    ensures due { LawfulOrder due_before }
    ensures line { LawfulOrder line_before }
    ensures meant { KeysAgree }
{}
