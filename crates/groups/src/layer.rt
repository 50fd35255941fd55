// The group layer as a case, and how groups are added.
ghost use Rattle.std.specs.Prelude.{◌≡◌, ◌+◌, ◌<◌, ◌≤◌, false, [], ◌∷◌, ◌++◌, length, nat_lt, MatchResult, OnOk, slice_index_or};
ghost use Rattle.cases.specs.Meanings.{is_oversize, rules_of};
ghost use Rattle.layers.specs.Rows.{past_all};
ghost use Rattle.arrayvec.specs.ArrayVec.{array_vec_len};
ghost use Rattle.groups.specs.Groups.{grouped, group_rules, pair_rules, group_check};
ghost use Rattle.groups.specs.Facts.Groups.{limited_grouped};
ghost use Rattle.groups.specs.Facts.GroupLayers.{groups_of};

use crate::pairs::{pair_count, pair_literal};
use crate::rising::is_rising;
use crate::state::Groups;
use arrayvec::ArrayVec;
use cases::case::Case;
use cases::limits::MOST_RULES;
use cases::refusal::Refusal;
use layers::lists::past_all;
use layers::row::Row;

const SMALLEST_GROUP: usize = 2;

const LARGEST_GROUP: usize = 8;

impl<C: Case> Groups<C> {
    // Each layer has a `new` and a `below` of its own: they name its fields, so a trait would only say them twice.
    pub fn new(below: C) -> Groups<C>
        ensures below { result.below ≡ below }
        ensures none { groups_of result ≡ [] }
    {
        Groups {
            below,
            groups: ArrayVec::new(),
            pairs: 0,
        }
    }

    // The case below, from which a choice that was read down can be read further down.
    pub fn below(&self) -> &C
        ensures { result.now ≡ self.now.below }
    {
        &self.below
    }

    // Adds a group: of its options no two are to be on.
    // `below` is an effect of the call and no fact of a value, so it is a clause here and in `hold`, and no invariant.
    #[tactic(auto, using(crate::proofs::GroupChecks::checked_sound))]
    pub fn add(&mut self, options: &[u8]) -> Result<(), Refusal>
        ensures answers { result ≡ group_check (groups_of self.old) (C.Case.meaning self.old.below) options.now }
        ensures adds { MatchResult result (λ _. groups_of self.new ≡ groups_of self.old ++ options.now ∷ []) (λ _. self.new ≡ self.old) }
        ensures below { self.new.below ≡ self.old.below }
        ensures fits { OnOk result (is_oversize (grouped (groups_of self.new) (C.Case.meaning self.new.below)) ≡ false) }
    {
        self.check(options)?;
        self.hold(options);
        Ok(())
    }

    // Whether one group more would bring too many rules.
    fn overfills(&self, options: &[u8]) -> bool
        requires { length options.now ≤ 16 }
        ensures { result ≡ nat_lt 512 (length (rules_of (grouped (groups_of self.now) (C.Case.meaning self.now.below))) + length (pair_rules options.now)) }
    {
        self.rules() + pair_count(options.len()) > MOST_RULES
    }

    fn check(&self, options: &[u8]) -> Result<(), Refusal>
        ensures { result ≡ group_check (groups_of self.now) (C.Case.meaning self.now.below) options.now }
    {
        if self.oversize() {
            Err(Refusal::Oversize)
        } else if !(SMALLEST_GROUP..=LARGEST_GROUP).contains(&options.len()) {
            Err(Refusal::WrongGroupSize)
        } else if past_all(options) > self.below.options() {
            Err(Refusal::NoSuchLiteral)
        } else if !is_rising(options) {
            Err(Refusal::NotRising)
        } else if self.groups.is_full() {
            Err(Refusal::Full)
        } else if self.overfills(options) {
            Err(Refusal::TooLarge)
        } else {
            Ok(())
        }
    }

    // `short` and `small` are what `Row::of` asks, handed on: no plainer from a row that `check` makes, as a refusal makes none.
    fn hold(&mut self, options: &[u8])
        requires room { array_vec_len self.old.groups < 4 }
        requires short { length options.now ≤ 16 }
        requires small { past_all options.now ≤ 128 }
        requires few { self.old.pairs ≤ 512 }
        requires fits { is_oversize (grouped (groups_of self.old ++ options.now ∷ []) (C.Case.meaning self.old.below)) ≡ false }
        ensures adds { groups_of self.new ≡ groups_of self.old ++ options.now ∷ [] }
        ensures below { self.new.below ≡ self.old.below }
    {
        self.groups.push(Row::of(options));
        self.pairs += pair_count(options.len());
    }

    // The literal at place j of rule k that the groups add; 255 where there is none.
    // 255 and no Option: it is handed on as `Case::literal` answers it.
    // It counts down: a group's rules are counted and not listed, so a chain would have to make each of them, and is no plainer.
    fn added_literal(&self, k: usize, j: usize) -> u8
        ensures { result ≡ slice_index_or (slice_index_or (group_rules (groups_of self.now)) k []) j 255 }
    {
        let mut left = k;
        for group in self.groups.iter() {
            let pairs = pair_count(group.len());
            if left < pairs {
                return pair_literal(group, left, j);
            }
            left -= pairs;
        }
        255
    }
}

impl<C: Case> Case for Groups<C> {
    ghost meaning = { λ x. grouped (groups_of x) (C.Case.meaning x.below) };

    ghost limits = { λ x. limited_grouped (groups_of x) (C.Case.meaning x.below) (C.Case.limits x.below) };

    fn oversize(&self) -> bool {
        self.below.oversize()
    }

    fn options(&self) -> usize {
        self.below.options()
    }

    fn rules(&self) -> usize {
        self.below.rules() + self.pairs
    }

    fn rule_len(&self, r: usize) -> usize {
        let rules = self.below.rules();
        if r < rules {
            self.below.rule_len(r)
        } else if r - rules < self.pairs {
            2
        } else {
            0
        }
    }

    fn literal(&self, r: usize, j: usize) -> u8 {
        let rules = self.below.rules();
        if r < rules {
            self.below.literal(r, j)
        } else {
            self.added_literal(r - rules, j)
        }
    }

    fn amount(&self, l: u8) -> u32 {
        self.below.amount(l)
    }
}
