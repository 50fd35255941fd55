// A row made of a list, and read.
ghost use Rattle.std.specs.Prelude.{◌≡◌, ◌≤◌, [], length, slice_index_or};
ghost use Rattle.layers.specs.Rows.{past_all};
ghost use Rattle.layers.specs.RowViews.{items_of};

use super::Row;
use shortlists::short_list::ShortList;
use std::alloc::AllocError;

// Written out, as no `Default` is derived beside a ghost field.
impl Default for Row {
    ghost is_default = { λ row. items_of row ≡ [] };

    fn default() -> Row {
        Row::empty()
    }
}

// Written out and not derived, so that an edit can try a wrong one. It never fails.
impl Clone for Row {
    ghost is_clone = { λ row copy. copy ≡ row };

    ghost is_infallible = { λ _. Unit };

    fn clone(&self) -> Result<Row, AllocError> {
        Ok(*self)
    }
}

impl Row {
    pub fn empty() -> Row
        ensures { items_of result ≡ [] }
    {
        Row {
            items: ShortList::empty(0),
        }
    }

    // The two facts stay clauses: the list is no row yet, and what `items` lends is none any more; the row has them as ghost fields.
    pub fn of(list: &[u8]) -> Row
        requires short { length list.now ≤ 16 }
        requires small { past_all list.now ≤ 128 }
        ensures { items_of result ≡ list.now }
    {
        let mut items = ShortList::empty(0);
        let _ = items.extend(list);
        Row { items }
    }

    pub fn len(&self) -> usize
        ensures { result ≡ length (items_of self.now) }
    {
        self.items.len()
    }

    pub fn items(&self) -> &[u8]
        ensures items { result.now ≡ items_of self.now }
        ensures short { length result.now ≤ 16 }
        ensures small { past_all result.now ≤ 128 }
    {
        &self.items
    }

    // What stands at place j; 255 where nothing does.
    // 255 and no Option: it is handed on as `Case::literal` answers it.
    pub fn at(&self, j: usize) -> u8
        ensures { result ≡ slice_index_or (items_of self.now) j 255 }
    {
        self.items.get(j).copied().unwrap_or(255)
    }
}
