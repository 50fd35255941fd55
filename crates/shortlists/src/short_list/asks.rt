// What a short list is asked.
ghost use Rattle.std.specs.Prelude.{◌≡◌, ◌≤◌, length, ◌==◌};
ghost use Rattle.shortlists.specs.ShortLists.{items_in};

use super::ShortList;
use std::ops::DerefSlice;

impl<T: Copy, const N: usize> ShortList<T, N> {
    pub fn len(&self) -> usize
        ensures value { result ≡ length (items_in self.now) }
        ensures fits { result ≤ N }
    {
        self.used
    }

    // Whether there is room for no item more.
    pub fn is_full(&self) -> bool
        ensures { result ≡ (length (items_in self.now) == N) }
    {
        self.len() == N
    }

    // The items, oldest first.
    pub fn as_slice(&self) -> &[T]
        ensures { result.now ≡ items_in self.now }
    {
        &self.cells[..self.len()]
    }
}

// A call of a slice reads the items.
impl<T: Copy, const N: usize> DerefSlice for ShortList<T, N> {
    type Elem = T;

    ghost deref_gives = { λ list xs. (xs ≡ items_in list) × (length xs ≤ N) };

    fn deref(&self) -> &[T] {
        self.as_slice()
    }
}
