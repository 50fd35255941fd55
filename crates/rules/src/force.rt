// The rules in force, place by place and as sets.
ghost use Rattle.std.specs.Prelude.{◌≡◌, ℕ, ◌<◌, ◌≤◌, length, slice_index_or};
ghost use Rattle.cases.specs.Literals.{members};
ghost use Rattle.calculus.specs.States.{clause as clause_at};
ghost use Rattle.literals.specs.Members.{member};
ghost use Rattle.rules.specs.Force.{all_rules, rule, all_clauses};

use cases::case::Case;
use literals::LiteralSet;
use std::marker::Model;
use tables::conditions::Conditions;
use tables::learned::Learned;

// The rules in force: those of a pile, and then the conditions.
#[derive(Drop)]
pub struct Force<'a, P: Case> {
    pub pile: &'a P,
    pub conditions: &'a Conditions,
}

impl<'a, P: Case> Model for Force<'a, P> {
    ghost use Rattle.rules.specs.Force.{InForce, put_in_force};

    ghost Value = { InForce };

    ghost view = { λ f. put_in_force (P.Case.meaning f.pile.now) f.conditions.now };
}

// These and then the learned ones.
// No Model: a learned rule is a set, which is a function of numbers, and a Model asks for a coded value.
#[derive(Drop)]
pub struct Rules<'a, P: Case> {
    pub force: &'a Force<'a, P>,
    pub learned: &'a Learned,
}

impl<'a, P: Case> Force<'a, P> {
    // How many rules are in force.
    pub fn in_force(&self) -> usize
        ensures answers { result ≡ length (all_rules self.now) }
        ensures few { result ≤ 544 }
    {
        self.pile.rules() + self.conditions.len()
    }

    // How many literals rule r has; 0 where there is no such rule.
    // Here and below the number that a case answers where there is none, and no Option: it would have to be made from that number.
    pub fn rule_len(&self, r: usize) -> usize
        ensures { result ≡ length (rule self.now r) }
    {
        let base = self.pile.rules();
        if r < base {
            self.pile.rule_len(r)
        } else {
            self.conditions.rule_len(r - base)
        }
    }

    // The literal at place j of rule r; 255 where there is none.
    pub fn rule_literal(&self, r: usize, j: usize) -> u8
        ensures answers { result ≡ slice_index_or (rule self.now r) j 255 }
        ensures small { j < length (rule self.now r) → result < 128 }
    {
        let base = self.pile.rules();
        if r < base {
            self.pile.literal(r, j)
        } else {
            self.conditions.literal(r - base, j)
        }
    }

    // Rule r as a set.
    fn rule_set(&self, r: usize) -> LiteralSet
        ensures { (x : ℕ) → member result x ≡ members (rule self.now r) x }
    {
        let mut set = LiteralSet::empty();
        // a pile tells its rules place by place, so there is no slice to go over
        for j in 0..self.rule_len(r) {
            set.insert(self.rule_literal(r, j));
        }
        set
    }
}

impl<'a, P: Case> Rules<'a, P> {
    // The rule at a place, as a set; the empty set where there is none.
    pub fn clause(&self, place: usize) -> LiteralSet
        ensures { (x : ℕ) → member result x ≡ clause_at (all_clauses self.now.force.now self.now.learned.now) place x }
    {
        let count = self.force.in_force();
        if place < count {
            self.force.rule_set(place)
        } else {
            self.learned.row(place - count)
        }
    }
}
