// How a short list is made, and what is done to it.
ghost use Rattle.std.specs.Prelude.{◌≡◌, ◌+◌, ◌-◌, ◌∷◌, ◌++◌, [], false, length, nat_le, nat_lt, take, slice_set, if◌then◌else◌, MatchOption};
ghost use Rattle.shortlists.specs.ShortLists.{items_in};

use super::ShortList;

impl<T: Copy, const N: usize> ShortList<T, N> {
    // An empty list. The blank stands in its places until an item does.
    pub fn empty(blank: T) -> Self
        ensures { items_in result ≡ [] }
    {
        ShortList {
            cells: [blank; N],
            used: 0,
        }
    }

    // One item more, after the others. Refused where the list is full: then nothing changes.
    pub fn push(&mut self, item: T) -> bool
        ensures answers { result ≡ nat_lt (length (items_in self.old)) N }
        ensures leaves { items_in self.new ≡ (if result then items_in self.old ++ item ∷ [] else items_in self.old) }
        ensures refused { result ≡ false → self.new ≡ self.old }
    {
        if self.is_full() {
            return false;
        }
        self.cells[self.used] = item;
        self.used += 1;
        true
    }

    // More items, in their order. Refused where there is no room for all of them: then nothing changes.
    pub fn extend(&mut self, more: &[T]) -> bool
        ensures answers { result ≡ nat_le (length (items_in self.old) + length more.now) N }
        ensures leaves { items_in self.new ≡ (if result then items_in self.old ++ more.now else items_in self.old) }
        ensures refused { result ≡ false → self.new ≡ self.old }
    {
        if more.len() > N - self.used {
            return false;
        }
        let len = self.used + more.len();
        let cells = &mut self.cells[..];
        cells[self.used..len].copy_from_slice(more);
        self.used = len;
        true
    }

    // The newest item goes, and is the answer. Where there is none, nothing changes.
    pub fn pop(&mut self) -> Option<T>
        ensures answers { MatchOption result (items_in self.old ≡ []) (λ item. items_in self.old ≡ items_in self.new ++ item ∷ []) }
        ensures leaves { items_in self.new ≡ take (length (items_in self.old) - 1) (items_in self.old) }
        ensures none { items_in self.old ≡ [] → self.new ≡ self.old }
    {
        if self.used == 0 {
            return None;
        }
        self.used -= 1;
        Some(self.cells[self.used])
    }

    // The item at this place becomes another; where there is none, nothing changes.
    #[tactic(auto, using(crate::proofs::Sets::set_within))]
    pub fn set(&mut self, at: usize, item: T)
        ensures { items_in self.new ≡ slice_set (items_in self.old) at item }
    {
        if at < self.used {
            self.cells[at] = item;
        }
    }

    // The first so many items stay; the others go.
    pub fn truncate(&mut self, len: usize)
        ensures { items_in self.new ≡ take len (items_in self.old) }
    {
        if len < self.used {
            self.used = len;
        }
    }

    pub fn clear(&mut self)
        ensures { items_in self.new ≡ [] }
    {
        self.used = 0;
    }
}
