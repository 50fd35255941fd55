// The conditions of a search.
ghost use Rattle.std.specs.Prelude.{◌≤◌, length};
ghost use Rattle.shortlists.specs.ShortLists.{items_in};

use layers::row::Row as Literals;
use shortlists::short_list::ShortList;

pub const MOST_CONDITIONS: usize = 32;

pub const LONGEST_CONDITION: usize = 16;

// A rule that the member added.
// A struct of one field: a bare row is no plainer, as the name tells a condition from any other list of literals.
#[derive(Clone, Copy)]
pub struct Condition {
    pub literals: Literals,
}

// The conditions, oldest first.
pub struct Conditions {
    held: ShortList<Condition, MOST_CONDITIONS>,
    // a clause sees the conditions and not how many fit, so this says it
    ghost few: { length (items_in held) ≤ 32 },
}

mod calls;

impl Copy for Conditions {}
