// The trail, with the set of its literals and that of their complements.
// Every value of the type keeps its levels right, and sets no option twice.
ghost use Rattle.std.specs.Prelude.{◌≡◌, ℕ, ◌≤◌, length};
ghost use Rattle.cases.specs.Literals.{complement};
ghost use Rattle.calculus.specs.Trails.{on, Levelled};
ghost use Rattle.literals.specs.Members.{member};
ghost use Rattle.shortlists.specs.ShortLists.{items_in};
ghost use Rattle.trails.specs.Entries.{trail_of};
ghost use Rattle.trails.specs.Kept.{WasUnset, WasNotFalse, Levelled-prop, WasUnset-prop, WasNotFalse-prop};

use crate::entry::Entry;
use cases::limits::MOST_OPTIONS;
use literals::LiteralSet;
use shortlists::short_list::ShortList;

// The entries, oldest first.
#[derive(Clone, Copy)]
pub struct Trail {
    entries: ShortList<Entry, MOST_OPTIONS>,
    set: LiteralSet,
    against: LiteralSet,
    ghost low: { length (items_in entries) ≤ 56 },
    ghost told: { (x : ℕ) → member set x ≡ on (trail_of (items_in entries)) x },
    ghost opposed: { (x : ℕ) → member against x ≡ on (trail_of (items_in entries)) (complement x) },
    ghost levelled: { Levelled (trail_of (items_in entries)) } by { Levelled-prop _ },
    ghost was_unset: { WasUnset (trail_of (items_in entries)) } by { WasUnset-prop _ },
    ghost was_not_false: { WasNotFalse (trail_of (items_in entries)) } by { WasNotFalse-prop _ },
}

mod acts;
mod asks;
mod reasons;
