// What a trail is asked.
ghost use Rattle.std.specs.Prelude.{◌≡◌, ℕ, ◌≤◌, ◌&&◌, ◌++◌, length, drop, ◌==◌};
ghost use Rattle.cases.specs.Literals.{complement};
ghost use Rattle.calculus.specs.Scans.{greatest};
ghost use Rattle.calculus.specs.Trails.{on, level as level_now, level_of, Levelled};
ghost use Rattle.calculus.specs.Learned.{is_reason};
ghost use Rattle.literals.specs.Members.{member};
ghost use Rattle.trails.specs.Entries.{literals_in, Top};
ghost use Rattle.trails.specs.Trails.{listed};

use super::Trail;
use crate::entry::Entry;
use cases::literals::opposite;
use literals::LiteralSet;

impl Trail {
    // The entry that joined last.
    pub fn top(&self) -> Option<Entry>
        ensures { Top (listed self.now) result }
    {
        self.entries.last().copied()
    }

    // The level of the trail: how many literals were decided. The levels of its entries are right.
    pub fn level(&self) -> u8
        ensures answers { result ≡ level_now (listed self.now) }
        ensures right { Levelled (listed self.now) }
        ensures within { result ≤ 56 }
    {
        self.top().map_or(0, |e| e.level)
    }

    // The literals that are set.
    pub fn literals(&self) -> LiteralSet
        ensures { (x : ℕ) → member result x ≡ on (listed self.now) x }
    {
        self.set
    }

    // The literals whose complements are set.
    pub fn complements(&self) -> LiteralSet
        ensures { (x : ℕ) → member result x ≡ on (listed self.now) (complement x) }
    {
        self.against
    }

    // The literals whose complements were set at the trail's own level.
    pub fn top_complements(&self) -> LiteralSet
        ensures { (x : ℕ) → member result x ≡ (on (listed self.now) (complement x) && level_of (listed self.now) (complement x) == level_now (listed self.now)) }
    {
        let level = self.level();
        let mut set = LiteralSet::empty();
        for e in self.entries.iter().rev().take_while(|e| e.level == level) {
            set.insert(opposite(e.literal));
        }
        set
    }

    // The greatest level at which the complement of a literal of the set was set, or 0.
    pub fn greatest_level(&self, set: &LiteralSet) -> u8
        ensures { result ≡ greatest 128 (member set.now) (λ x. level_of (listed self.now) (complement x)) }
    {
        self.entries
            .iter()
            .rev()
            .find(|e| set.has(opposite(e.literal)))
            .map_or(0, |e| e.level)
    }

    // Whether the rule at this place is the reason of a literal.
    pub fn names(&self, place: usize) -> bool
        ensures { result ≡ is_reason (listed self.now) place }
    {
        self.entries.iter().any(|e| e.reason.is_place(place))
    }

    // Writes the literals, oldest first, and answers how many there are; what stands after them stays. The buffer has
    // a place for every literal that a trail can have.
    pub fn list(&self, into: &mut [u8; 56]) -> usize
        ensures answers { result ≡ length (listed self.now) }
        ensures within { result ≤ 56 }
        ensures writes { into.new ≡ literals_in (listed self.now) ++ drop result into.old }
    {
        // no zip over into.iter_mut(): of what a zip over it writes, a proof knows nothing
        for (i, e) in self.entries.iter().enumerate() {
            into[i] = e.literal;
        }
        self.entries.len()
    }
}
