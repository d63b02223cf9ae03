// A list of at most N items that lies in the value itself.
ghost use Rattle.std.specs.Prelude.{◌≡◌, ◌<◌, ◌≤◌, ◌==◌, [], ◌∷◌, ◌++◌, ⊤, length, take, slice_get, slice_index_or, slice_set, IfNone};
ghost use Rattle.std.specs.Option.{option_to_list};
ghost use Rattle.std.specs.Fn.{FnOnceReturnsAtMut};
ghost use Rattle.meaning.specs.Basics.{put as put_in};
ghost use Rattle.ordered.specs.Rows.{if_room, without};

use crate::Key;
use std::alloc::AllocError;

/// At most `N` items in the value itself, which can be copied. It has no view as a type (`Model`),
/// since that would hide what lies behind the items, and a copy needs it.
#[derive(Drop)]
pub struct CopyRow<T: Copy, const N: usize> {
    places: [T; N],
    len: usize,
    ghost few: { len ≤ N },
}

impl<T: Copy, const N: usize> Copy for CopyRow<T, N> {}

// No derive takes items of any type beside a ghost field.
impl<T: Copy, const N: usize> Clone for CopyRow<T, N> {
    ghost is_clone = { λ x y. y ≡ x };

    ghost is_infallible = { λ _. ⊤ };

    fn clone(&self) -> Result<CopyRow<T, N>, AllocError> {
        Ok(*self)
    }
}

// Clauses see the items.
impl<T: Copy, const N: usize> CopyRow<T, N> {
    ghost use Rattle.ordered.specs.Items.{items};

    /// No items; the blank stands in places that hold none, since there is no heap to grow on.
    pub fn new(blank: T) -> CopyRow<T, N>
        ensures { items result ≡ [] }
    {
        CopyRow {
            places: [blank; N],
            len: 0,
        }
    }

    /// The items. That there are no more than `N` stands here and in the next two contracts, for
    /// whoever asks in code.
    pub fn as_slice(&self) -> &[T]
        ensures items { result.now ≡ items self.now }
        ensures within { length (items self.now) ≤ N }
    {
        &self.places[..self.len]
    }

    /// How many items there are.
    pub fn len(&self) -> usize
        ensures count { result ≡ length (items self.now) }
        ensures within { length (items self.now) ≤ N }
    {
        self.as_slice().len()
    }

    /// Whether there is no room for one more.
    pub fn is_full(&self) -> bool
        ensures full { result ≡ (length (items self.now) == N) }
        ensures within { length (items self.now) ≤ N }
    {
        self.len == N
    }

    /// The item at a place, where there is one; the first place is 0.
    pub fn get(&self, place: usize) -> Option<T>
        ensures { result ≡ slice_get (items self.now) place }
    {
        self.as_slice().get(place).copied()
    }

    /// Another item at a place, where there is one.
    pub fn set(&mut self, place: usize, item: T)
        ensures { items self.new ≡ slice_set (items self.old) place item }
    {
        // `get_mut` needs as many lines, and a proof of its own.
        if place < self.len {
            self.places[place] = item;
        }
    }

    /// Changes the item at a place, where there is one.
    /// What Rattle asks of each call of a closure stands as the `requires`: that it may be called.
    pub fn change<F: FnOnce(&mut T)>(&mut self, place: usize, change: F)
        requires { F.IsAlwaysCallable change }
        ensures there { place < length (items self.old) → (item : T)
            × FnOnceReturnsAtMut F.FnOnce change
            (slice_index_or (items self.old) place item) tt item
            × (items self.new ≡ slice_set (items self.old) place item) }
        ensures nowhere { length (items self.old) ≤ place → items self.new ≡ items self.old }
    {
        if place < self.len {
            let places = &mut self.places;
            change(&mut places[place]);
        }
    }

    /// One item more at the end. A full row stays as it is.
    pub fn push(&mut self, item: T)
        ensures { items self.new ≡ if_room N (λ xs. xs ++ item ∷ []) (items self.old) }
    {
        if self.len < N {
            self.places[self.len] = item;
            self.len += 1;
        }
    }

    /// Takes the last item off.
    pub fn pop(&mut self) -> Option<T>
        ensures items { items self.old ≡ items self.new ++ option_to_list result }
        ensures none { IfNone result (items self.old ≡ []) }
    {
        if self.len == 0 {
            return None;
        }
        self.len -= 1;
        Some(self.places[self.len])
    }

    /// Keeps so many from the front.
    pub fn truncate(&mut self, count: usize)
        ensures { items self.new ≡ take count (items self.old) }
    {
        self.len = self.len.min(count);
    }

    /// The items of another row, in place of its own.
    pub fn copy_from(&mut self, other: &CopyRow<T, N>)
        ensures { items self.new ≡ items other.now }
    {
        let items = other.as_slice();
        self.places[..items.len()].copy_from_slice(items);
        self.len = items.len();
    }
}

impl<K: Key, const N: usize> CopyRow<K, N> {
    ghost use Rattle.ordered.specs.Items.{items};

    /// Puts a key at its place, behind its equals. A full row stays as it is.
    pub fn put(&mut self, key: K)
        ensures { items self.new ≡ if_room N (put_in K.before key) (items self.old) }
    {
        self.len = crate::put(&mut self.places, self.len, key);
    }

    /// Takes the first such key out, where it is there.
    pub fn take_out(&mut self, key: K)
        ensures { items self.new ≡ without K.before key (items self.old) }
    {
        self.len = crate::take_out(&mut self.places, self.len, key);
    }
}
