// What the rules of the calculus do to the work of a search. Each keeps the notes of the rows right. That stays a clause of each and
// no invariant of Work: a note is right by how many rules are in force, the base, and that the work does not know.
ghost use Rattle.std.specs.Prelude.{◌≡◌, ℕ, ◌<◌, ◌≤◌, true, ◌∷◌, if◌then◌else◌};
ghost use Rattle.calculus.specs.Trails.{cut as cut_trail, level};
ghost use Rattle.literals.specs.Members.{member};
ghost use Rattle.trails.specs.Entries.{entry_of, reason_of, tail_of};
ghost use Rattle.trails.specs.Trails.{listed, has_place};
ghost use Rattle.tables.specs.Learned.{rows_of};
ghost use Rattle.steps.specs.Shapes.{shape, conflicting, improving, pushing, popping, backing, mark_named, still_named, Right};

use crate::held::Work;
use literals::LiteralSet;
use tables::learned::Learned;
use trails::entry::{Entry, Reason};
use trails::trail::Trail;

// The row that a reason names notes whether it is one; the rows begin at the place `base`.
fn mark_reason(learned: &mut Learned, base: usize, reason: Reason, named: bool)
    ensures { rows_of learned.new ≡ mark_named base (reason_of reason) named (rows_of learned.old) }
{
    if let Reason::Forced(place) = reason {
        let place = place as usize;
        if place >= base {
            learned.mark(place - base, named);
        }
    }
}

// Whether the rule that a reason names is the reason of a literal of the trail.
fn is_named(trail: &Trail, reason: Reason) -> bool
    ensures { result ≡ still_named (listed trail.now) (reason_of reason) }
{
    match reason {
        Reason::Decided => false,
        Reason::Forced(place) => trail.names(place as usize),
    }
}

impl Work {
    // The set becomes the conflict set.
    #[tactic(auto, unfolding(calculus::specs::States::up))]
    pub(crate) fn conflict_with(&mut self, set: LiteralSet)
        ensures leaves { shape self.new ≡ conflicting (member set) (shape self.old) }
        ensures notes { (base : ℕ) → Right base self.old → Right base self.new }
    {
        self.conflict = Some(set);
        self.conflicts = self.conflicts.saturating_add(1);
        self.steps = self.steps.saturating_add(1);
    }

    // The set becomes the best choice.
    #[tactic(auto, unfolding(calculus::specs::States::up))]
    pub(crate) fn improve(&mut self, choice: LiteralSet)
        ensures leaves { shape self.new ≡ improving (member choice) (shape self.old) }
        ensures notes { (base : ℕ) → Right base self.old → Right base self.new }
    {
        self.choice = choice;
        self.conflict = None;
        self.steps = self.steps.saturating_add(1);
    }

    // The literal joins the trail, if there is a place for it.
    pub(crate) fn push(&mut self, base: usize, literal: u8, reason: Reason)
        ensures leaves { shape self.new ≡ (if has_place (listed self.old.trail) literal then pushing literal reason (shape self.old) else shape self.old) }
        ensures notes { Right base self.old → Right base self.new }
    {
        if self.trail.push(literal, reason) {
            mark_reason(&mut self.learned, base, reason, true);
            self.conflict = None;
            self.steps = self.steps.saturating_add(1);
        }
    }

    // The last entry of the trail, which is `top`, goes, and the set becomes the conflict set.
    pub(crate) fn pop(&mut self, base: usize, top: Entry, set: LiteralSet)
        requires { listed self.old.trail ≡ entry_of top ∷ tail_of (listed self.old.trail) }
        ensures leaves { shape self.new ≡ popping (member set) (shape self.old) }
        ensures notes { Right base self.old → Right base self.new }
    {
        self.trail.pop();
        let named = is_named(&self.trail, top.reason);
        mark_reason(&mut self.learned, base, top.reason, named);
        self.conflict = Some(set);
        self.steps = self.steps.saturating_add(1);
    }

    // Levels above i leave the trail, a full table drops a row, the set is learned, and its literal joins with that reason.
    pub(crate) fn backtrack(&mut self, base: usize, set: LiteralSet, literal: u8, i: u8)
        requires few { base ≤ 544 }
        requires lower { i < level (listed self.old.trail) }
        requires room { has_place (cut_trail i (listed self.old.trail)) literal ≡ true }
        ensures leaves { shape self.new ≡ backing base (member set) literal i (shape self.old) }
        ensures notes { Right base self.new }
    {
        self.trail.cut(i);
        let reasons = self.trail.reasons(base);
        self.learned.note(&reasons);
        let p = self.learned.leaving();
        self.learned.remove(p);
        self.trail.rename(base + p);
        let place = base + self.learned.len();
        let _ = self.learned.learn(set, true);
        let _ = self.trail.push(literal, Reason::Forced(place as u16));
        self.conflict = None;
        self.steps = self.steps.saturating_add(1);
    }
}
