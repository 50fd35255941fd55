// A list of at most N items, which lie in the value itself: it needs no heap, and it is copied as it is.
// The library's vector of fixed capacity does the same but cannot be copied, and neither could what holds one.
ghost use Rattle.std.specs.Prelude.{◌≡◌, ◌≤◌, length};

pub struct ShortList<T, const N: usize> {
    // the items, and blanks after them
    cells: [T; N],
    used: usize,
    ghost few: { used ≤ N },
    ghost full: { length cells ≡ N },
}

mod asks;
mod changes;
mod copies;

impl<T: Copy, const N: usize> Copy for ShortList<T, N> {}
