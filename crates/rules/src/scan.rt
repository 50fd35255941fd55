// Looking for the first rule that has no literal in a set, and for the first that has just one.
ghost use Rattle.std.specs.Prelude.{◌≡◌, ℕ, length, slice_index_or};
ghost use Rattle.cases.specs.Literals.{members};
ghost use Rattle.calculus.specs.Scans.{place as place_of};
ghost use Rattle.literals.specs.Members.{member};
ghost use Rattle.tables.specs.Learned.{rows_of};
ghost use Rattle.rules.specs.Force.{all_rules, rule, all_clauses, row};
ghost use Rattle.rules.specs.Scans.{misses, FirstOf, found, OtherFrom, ForcedBy, UnitOf};

use crate::force::{Force, Rules};
use cases::case::Case;
use literals::LiteralSet;
use tables::learned::Learned;

impl<'a, P: Case> Force<'a, P> {
    // The first rule in force that has no literal in the set.
    fn missing_rule(&self, set: &LiteralSet) -> Option<usize>
        ensures { FirstOf (λ q. misses (member set.now) (members (rule self.now q))) (length (all_rules self.now)) result }
    {
        // nested loops, left by the label at the first rule with every literal false: the form that the project asks for here
        'rules: for r in 0..self.in_force() {
            for j in 0..self.rule_len(r) {
                if set.has(self.rule_literal(r, j)) {
                    continue 'rules;
                }
            }
            return Some(r);
        }
        None
    }

    // The first place of rule r whose literal is in the set.
    fn place_in(&self, set: &LiteralSet, r: usize) -> Option<usize>
        ensures { FirstOf (λ q. member set.now (slice_index_or (rule self.now r) q 255)) (length (rule self.now r)) result }
    {
        (0..self.rule_len(r)).find(|j| set.has(self.rule_literal(r, *j)))
    }

    // Whether rule r has a literal other than l in the set, at a place from this one on.
    fn has_other(&self, set: &LiteralSet, r: usize, from: usize, l: u8) -> bool
        ensures { OtherFrom (member set.now) (rule self.now r) from l result }
    {
        (from..self.rule_len(r)).any(|j| {
            let k = self.rule_literal(r, j);
            set.has(k) && k != l
        })
    }

    // The one literal that rule r has in the set, if it has just one there and that one is not settled.
    // Here and below `set` and `settled` stay two parameters: a struct of two sets for three functions is no plainer.
    fn forced_by_rule(&self, set: &LiteralSet, settled: &LiteralSet, r: usize) -> Option<u8>
        ensures { ForcedBy (member set.now) (member settled.now) (members (rule self.now r)) result }
    {
        let j = self.place_in(set, r)?;
        let l = self.rule_literal(r, j);
        if settled.has(l) {
            return None;
        }
        if self.has_other(set, r, j, l) {
            return None;
        }
        Some(l)
    }
}

// Whether learned rule j has no literal in the set.
fn row_misses(learned: &Learned, set: &LiteralSet, j: usize) -> bool
    ensures { result ≡ misses (member set.now) (row learned.now j) }
{
    learned.row(j).meet(set).is_empty()
}

// The first learned rule that has no literal in the set.
fn missing_row(learned: &Learned, set: &LiteralSet) -> Option<usize>
    ensures { FirstOf (λ q. misses (member set.now) (row learned.now q)) (length (rows_of learned.now)) result }
{
    (0..learned.len()).find(|j| row_misses(learned, set, *j))
}

// The one literal that learned rule j has in the set, if it has just one there and that one is not settled.
// Not joined to forced_by_rule: a rule of a pile would first have to be made a set, place by place, in the innermost loop (not tried).
fn forced_by_row(learned: &Learned, set: &LiteralSet, settled: &LiteralSet, j: usize) -> Option<u8>
    ensures { ForcedBy (member set.now) (member settled.now) (row learned.now j) result }
{
    let l = learned.row(j).meet(set).only()?;
    if settled.has(l) { None } else { Some(l) }
}

impl<'a, P: Case> Rules<'a, P> {
    // The place of the first rule that has no literal in the set.
    pub fn first_missing(&self, set: &LiteralSet) -> Option<usize>
        ensures { found result ≡ place_of (misses (member set.now)) (all_clauses self.now.force.now self.now.learned.now) }
    {
        if let Some(r) = self.force.missing_rule(set) {
            return Some(r);
        }
        let j = missing_row(self.learned, set)?;
        Some(self.force.in_force() + j)
    }

    // The place of the first rule that has just one literal in the set, which is not settled, and that literal.
    pub fn first_forcing(&self, set: &LiteralSet, settled: &LiteralSet) -> Option<(usize, u8)>
        ensures { UnitOf (member set.now) (member settled.now) (all_clauses self.now.force.now self.now.learned.now) result }
    {
        // find_map was tried: its closures prove, and what is left is that its answer is the first, of which the library has no lemma
        let count = self.force.in_force();
        for r in 0..count {
            if let Some(l) = self.force.forced_by_rule(set, settled, r) {
                return Some((r, l));
            }
        }
        for j in 0..self.learned.len() {
            if let Some(l) = forced_by_row(self.learned, set, settled, j) {
                return Some((count + j, l));
            }
        }
        None
    }
}
