// The open layer: a choice may leave options of the case below open.
ghost use Rattle.std.specs.Prelude.{◌≡◌, ◌<◌, ◌++◌, length, drop, MatchResult, slice_index_or};
ghost use Rattle.cases.specs.Meanings.{options_of};
ghost use Rattle.layers.specs.Checks.{unless_refused};
ghost use Rattle.layers.specs.Opens.{opened, open_room, not_both};
ghost use Rattle.layers.specs.Facts.Opens.{limited_opened};
ghost use Rattle.layers.specs.Readings.{read_faults, read_down, settings};

use crate::marks::{read_front, setting};
use crate::setting::Setting;
use cases::case::Case;
use cases::limits::{MOST_OPTIONS, MOST_RULES};
use cases::refusal::Refusal;

#[derive(Drop)]
pub struct Open<C> {
    below: C,
}

impl<C: Case> Open<C> {
    // Each layer has a `new` and a `below` of its own: they name its fields, so a trait would only say them twice.
    pub fn new(below: C) -> Open<C>
        ensures { result.below ≡ below }
    {
        Open { below }
    }

    // The case below, from which a choice that was read down can be read further down.
    pub fn below(&self) -> &C
        ensures { result.now ≡ self.now.below }
    {
        &self.below
    }

    // Writes how the choice sets each option below, and answers how many there are; what stands after them stays.
    pub fn read_down(&self, choice: &[bool], into: &mut [Setting]) -> Result<usize, Refusal>
        ensures answers { result ≡ unless_refused (read_faults (opened (C.Case.meaning self.now.below)) (C.Case.meaning self.now.below) (length into.old)) (options_of (C.Case.meaning self.now.below)) }
        ensures writes { MatchResult result (λ n. into.new ≡ settings n (read_down n choice.now) ++ drop n into.old) (λ _. into.new ≡ into.old) }
    {
        read_front(self, self.below.options(), |v| setting(choice, v), into)
    }
}

// Whether two options for each option below, and a rule more for each, are within the limits.
// Each method asks it first: what they answer where there is no room differs, so one guard for all is no plainer.
// Nor is an Option of the two sizes: `oversize`, `options` and `amount` need not both of them after the test.
fn has_room(options: usize, rules: usize) -> bool
    ensures { result ≡ open_room options rules }
{
    options <= MOST_OPTIONS / 2 && rules <= MOST_RULES - options
}

// The literal at place j of the rule that option v below is not both on and off.
// 255 and no Option: it is handed on as `Case::literal` answers it.
// The ladder and the groups have much the same line: shared, it would be public, and its `requires` with it.
fn not_both_literal(v: usize, j: usize) -> u8
    requires { v < 56 }
    ensures { result ≡ slice_index_or (not_both v) j 255 }
{
    let v = v as u8;
    [4 * v + 1, 4 * v + 3].get(j).copied().unwrap_or(255)
}

impl<C: Case> Case for Open<C> {
    ghost meaning = { λ x. opened (C.Case.meaning x.below) };

    ghost limits = { λ x. limited_opened (C.Case.meaning x.below) (C.Case.limits x.below) };

    fn oversize(&self) -> bool {
        self.below.oversize() || !has_room(self.below.options(), self.below.rules())
    }

    fn options(&self) -> usize {
        let options = self.below.options();
        if has_room(options, self.below.rules()) {
            2 * options
        } else {
            0
        }
    }

    fn rules(&self) -> usize {
        let options = self.below.options();
        let rules = self.below.rules();
        if has_room(options, rules) {
            rules + options
        } else {
            0
        }
    }

    fn rule_len(&self, r: usize) -> usize {
        let options = self.below.options();
        let rules = self.below.rules();
        if !has_room(options, rules) {
            0
        } else if r < rules {
            self.below.rule_len(r)
        } else if r < rules + options {
            2
        } else {
            0
        }
    }

    fn literal(&self, r: usize, j: usize) -> u8 {
        let options = self.below.options();
        let rules = self.below.rules();
        if !has_room(options, rules) {
            return 255;
        }
        if r >= rules + options {
            return 255;
        }
        if r >= rules {
            return not_both_literal(r - rules, j);
        }
        let l = self.below.literal(r, j);
        if l < 128 { 2 * l } else { 255 }
    }

    fn amount(&self, l: u8) -> u32 {
        if !has_room(self.below.options(), self.below.rules()) {
            0
        } else if l % 2 == 0 {
            self.below.amount(l / 2)
        } else {
            0
        }
    }
}
