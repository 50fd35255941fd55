// What is done to a trail.
ghost use Rattle.std.specs.Prelude.{◌≡◌, [], if◌then◌else◌};
ghost use Rattle.calculus.specs.Trails.{cut as cut_trail};
ghost use Rattle.calculus.specs.Learned.{renamed};
ghost use Rattle.shortlists.specs.ShortLists.{items_in};
ghost use Rattle.trails.specs.Entries.{joined, tail_of, trail_of};
ghost use Rattle.trails.specs.Trails.{listed, has_place};

use super::Trail;
use crate::entry::{Entry, Reason};
use cases::limits::MOST_OPTIONS;
use cases::literals::opposite;
use literals::{LiteralSet, SPAN};
use shortlists::short_list::ShortList;

impl Trail {
    pub fn empty() -> Trail
        ensures { listed result ≡ [] }
    {
        let entries = ShortList::empty(Entry::default());
        Trail {
            entries,
            set: LiteralSet::empty(),
            against: LiteralSet::empty(),
        }
    }

    // Whether the trail is not full and leaves the option of this literal unset.
    fn can_join(&self, literal: u8) -> bool
        ensures { result ≡ has_place (listed self.now) literal }
    {
        !self.entries.is_full()
            && literal < SPAN
            && !self.set.has(literal)
            && !self.against.has(literal)
    }

    // The literal joins, at the level that its reason gives it. Refused where the trail is full or sets its option
    // already, and for a number that is no literal: then nothing changes.
    // The answer stays a bool, whether the literal joined, as HashSet::insert answers: the error of a Result would say nothing.
    pub fn push(&mut self, literal: u8, reason: Reason) -> bool
        ensures answers { result ≡ has_place (listed self.old) literal }
        ensures leaves { listed self.new ≡ (if result then joined literal reason (listed self.old) else listed self.old) }
    {
        if !self.can_join(literal) {
            return false;
        }
        let level = reason.opens(self.level());
        self.entries.push(Entry {
            literal,
            level,
            reason,
        });
        self.set.insert(literal);
        self.against.insert(opposite(literal));
        true
    }

    // The last literal goes.
    pub fn pop(&mut self)
        ensures { listed self.new ≡ tail_of (listed self.old) }
    {
        let Some(last) = self.entries.pop() else {
            return;
        };
        self.set.remove(last.literal);
        self.against.remove(opposite(last.literal));
    }

    // The levels above this one go.
    pub fn cut(&mut self, level: u8)
        ensures { listed self.new ≡ cut_trail level (listed self.old) }
    {
        // no index is counted: the top decides how far it goes
        while self.top().is_some_and(|e| e.level > level) {
            self.pop();
        }
    }

    // The rule at the place `gone` has left, and the later ones have moved down by one.
    pub fn rename(&mut self, gone: usize)
        ensures { listed self.new ≡ renamed gone (listed self.old) }
    {
        rename_all(&mut self.entries, gone);
    }

    pub fn clear(&mut self)
        ensures { listed self.new ≡ [] }
    {
        self.entries.clear();
        self.set = LiteralSet::empty();
        self.against = LiteralSet::empty();
    }
}

fn rename_all(entries: &mut ShortList<Entry, MOST_OPTIONS>, gone: usize)
    ensures { trail_of (items_in entries.new) ≡ renamed gone (trail_of (items_in entries.old)) }
{
    // by number: a short list lends no slice to write into
    for at in 0..entries.len() {
        let e = entries.as_slice()[at];
        entries.set(
            at,
            Entry {
                literal: e.literal,
                level: e.level,
                reason: e.reason.renamed(gone),
            },
        );
    }
}
