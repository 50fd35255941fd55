// A short list of literals or options.
ghost use Rattle.std.specs.Prelude.{◌≡◌, ◌≤◌, length};
ghost use Rattle.layers.specs.Rows.{past_all};
ghost use Rattle.shortlists.specs.ShortLists.{items_in};

use shortlists::short_list::ShortList;

pub struct Row {
    items: ShortList<u8, 16>,
    // a clause sees the items and not how many fit, so this says it
    ghost short: { length (items_in items) ≤ 16 },
    ghost small: { past_all (items_in items) ≤ 128 },
}

mod reads;

impl Copy for Row {}
