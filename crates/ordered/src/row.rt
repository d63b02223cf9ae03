// A list of at most N items that lies in the value itself, and whose value is that list.
ghost use Rattle.std.specs.Prelude.{◌≡◌, ◌<◌, ◌≤◌, ◌==◌, [], ◌∷◌, ◌++◌, length, take, slice_get, slice_index_or, slice_set, IfNone};
ghost use Rattle.std.specs.Option.{option_to_list};
ghost use Rattle.std.specs.Fn.{FnOnceReturnsAtMut};
ghost use Rattle.meaning.specs.Basics.{put as put_in};
ghost use Rattle.ordered.specs.Rows.{if_room, without};

use crate::Key;
use crate::copy_row::CopyRow;
use std::marker::Model;

/// At most `N` items in the value itself, for who compares rows or keeps one in their own struct.
/// It can't be copied, since its view forgets what lies behind the items: `CopyRow` can.
#[derive(Drop)]
pub struct Row<T: Copy, const N: usize> {
    row: CopyRow<T, N>,
}

// Clauses see the items.
impl<T: Copy, const N: usize> Model for Row<T, N> {
    ghost use Rattle.std.specs.Prelude.{◌≤◌, List};
    ghost use Rattle.ordered.specs.Items.{items};

    ghost Value = { List T };

    ghost view = { λ r. items r.row };

    ghost invariant = { λ r. r.row.len ≤ N };
}

impl<T: Copy, const N: usize> Row<T, N> {
    /// No items; the blank stands in places that hold none, since there is no heap to grow on.
    pub fn new(blank: T) -> Row<T, N>
        ensures { result ≡ [] }
    {
        Row {
            row: CopyRow::new(blank),
        }
    }

    /// The items. That there are no more than `N` stands here and in the next two contracts, since
    /// a caller sees the list alone.
    pub fn as_slice(&self) -> &[T]
        ensures items { result.now ≡ self.now }
        ensures within { length self.now ≤ N }
    {
        self.row.as_slice()
    }

    /// How many items there are.
    pub fn len(&self) -> usize
        ensures count { result ≡ length self.now }
        ensures within { length self.now ≤ N }
    {
        self.row.len()
    }

    /// Whether there is no room for one more.
    pub fn is_full(&self) -> bool
        ensures full { result ≡ (length self.now == N) }
        ensures within { length self.now ≤ N }
    {
        self.row.is_full()
    }

    /// The item at a place, where there is one; the first place is 0.
    pub fn get(&self, place: usize) -> Option<T>
        ensures { result ≡ slice_get self.now place }
    {
        self.row.get(place)
    }

    /// Another item at a place, where there is one.
    pub fn set(&mut self, place: usize, item: T)
        ensures { self.new ≡ slice_set self.old place item }
    {
        self.row.set(place, item);
    }

    /// Changes the item at a place, where there is one.
    /// What Rattle asks of each call of a closure stands as the `requires`: that it may be called.
    pub fn change<F: FnOnce(&mut T)>(&mut self, place: usize, change: F)
        requires { F.IsAlwaysCallable change }
        ensures there { place < length self.old → (item : T)
            × FnOnceReturnsAtMut F.FnOnce change (slice_index_or self.old place item) tt item
            × (self.new ≡ slice_set self.old place item) }
        ensures nowhere { length self.old ≤ place → self.new ≡ self.old }
    {
        self.row.change(place, change);
    }

    /// One item more at the end. A full row stays as it is.
    pub fn push(&mut self, item: T)
        ensures { self.new ≡ if_room N (λ xs. xs ++ item ∷ []) self.old }
    {
        self.row.push(item);
    }

    /// Takes the last item off.
    pub fn pop(&mut self) -> Option<T>
        ensures items { self.old ≡ self.new ++ option_to_list result }
        ensures none { IfNone result (self.old ≡ []) }
    {
        self.row.pop()
    }

    /// Keeps so many from the front.
    pub fn truncate(&mut self, count: usize)
        ensures { self.new ≡ take count self.old }
    {
        self.row.truncate(count);
    }

    /// The items of another row, in place of its own.
    pub fn copy_from(&mut self, other: &Row<T, N>)
        ensures { self.new ≡ other.now }
    {
        self.row.copy_from(&other.row);
    }
}

impl<K: Key, const N: usize> Row<K, N> {
    /// Puts a key at its place, behind its equals. A full row stays as it is.
    pub fn put(&mut self, key: K)
        ensures { self.new ≡ if_room N (put_in K.before key) self.old }
    {
        self.row.put(key);
    }

    /// Takes the first such key out, where it is there.
    pub fn take_out(&mut self, key: K)
        ensures { self.new ≡ without K.before key self.old }
    {
        self.row.take_out(key);
    }
}
