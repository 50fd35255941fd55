// The wish layer as a case, and how wishes are added.
ghost use Rattle.std.specs.Prelude.{◌≡◌, ◌<◌, ◌≤◌, false, [], ◌∷◌, ◌++◌, length, drop, MatchOption, MatchResult, OnOk, slice_index_or};
ghost use Rattle.cases.specs.Meanings.{is_oversize, options_of};
ghost use Rattle.layers.specs.Checks.{unless_refused};
ghost use Rattle.layers.specs.Readings.{read_faults, first_options};
ghost use Rattle.layers.specs.Rows.{past_all};
ghost use Rattle.wishes.specs.Wishes.{wishing, wish_check, wish_for};
ghost use Rattle.wishes.specs.Facts.Wishes.{limited_wishing, no_wish};
ghost use Rattle.wishes.specs.WishViews.{wish_of};
ghost use Rattle.arrayvec.specs.ArrayVec.{array_vec_len};
ghost use Rattle.wishes.specs.Facts.WishLayers.{wishes_of, held_wishes};

use crate::held::HeldWish;
use crate::state::Wishes;
use arrayvec::ArrayVec;
use cases::case::Case;
use cases::limits::{MOST_OPTIONS, MOST_RULES};
use cases::refusal::Refusal;
use layers::lists::past_all;
use layers::marks::{is_set, read_front};
use layers::row::Row;

const LONGEST_WISH: usize = 16;

impl<C: Case> Wishes<C> {
    // Each layer has a `new` and a `below` of its own: they name its fields, so a trait would only say them twice.
    pub fn new(below: C) -> Wishes<C>
        ensures below { result.below ≡ below }
        ensures none { wishes_of result ≡ [] }
    {
        Wishes {
            below,
            wishes: ArrayVec::new(),
        }
    }

    // The case below, from which a choice that was read down can be read further down.
    pub fn below(&self) -> &C
        ensures { result.now ≡ self.now.below }
    {
        &self.below
    }

    // Adds a wish: a rule that may be broken at the price of the amount.
    // `below` is an effect of the call and no fact of a value, so it is a clause here and in `hold`, and no invariant.
    #[tactic(auto, using(crate::proofs::WishChecks::checked_sound))]
    pub fn add(&mut self, wish: &[u8], amount: u32) -> Result<(), Refusal>
        ensures answers { result ≡ wish_check (wishes_of self.old) (C.Case.meaning self.old.below) wish.now }
        ensures adds { MatchResult result (λ _. wishes_of self.new ≡ wishes_of self.old ++ wish_for wish.now amount ∷ []) (λ _. self.new ≡ self.old) }
        ensures below { self.new.below ≡ self.old.below }
        ensures fits { OnOk result (is_oversize (wishing (wishes_of self.new) (C.Case.meaning self.new.below)) ≡ false) }
    {
        self.check(wish)?;
        self.hold(wish, amount);
        Ok(())
    }

    // Writes how the choice sets each option below, and answers how many there are; what stands after them stays.
    pub fn read_down(&self, choice: &[bool], into: &mut [bool]) -> Result<usize, Refusal>
        ensures answers { result ≡ unless_refused (read_faults (wishing (wishes_of self.now) (C.Case.meaning self.now.below)) (C.Case.meaning self.now.below) (length into.old)) (options_of (C.Case.meaning self.now.below)) }
        ensures writes { MatchResult result (λ n. into.new ≡ first_options n choice.now ++ drop n into.old) (λ _. into.new ≡ into.old) }
    {
        read_front(self, self.below.options(), |v| is_set(choice, v), into)
    }

    fn check(&self, wish: &[u8]) -> Result<(), Refusal>
        ensures { result ≡ wish_check (wishes_of self.now) (C.Case.meaning self.now.below) wish.now }
    {
        let options = self.below.options();
        if self.oversize() {
            Err(Refusal::Oversize)
        } else if wish.len() > LONGEST_WISH {
            Err(Refusal::TooLong)
        } else if past_all(wish) > 2 * options {
            Err(Refusal::NoSuchLiteral)
        } else if self.wishes.is_full() {
            Err(Refusal::Full)
        } else if options + self.wishes.len() >= MOST_OPTIONS {
            Err(Refusal::TooLarge)
        } else if self.below.rules() + self.wishes.len() >= MOST_RULES {
            Err(Refusal::TooLarge)
        } else {
            Ok(())
        }
    }

    // `short` and `small` are what `Row::of` asks, handed on: no plainer from a row that `check` makes, as a refusal makes none.
    fn hold(&mut self, wish: &[u8], amount: u32)
        requires room { array_vec_len self.old.wishes < 8 }
        requires short { length wish.now ≤ 16 }
        requires small { past_all wish.now ≤ 128 }
        requires fits { is_oversize (wishing (wishes_of self.old ++ wish_for wish.now amount ∷ []) (C.Case.meaning self.old.below)) ≡ false }
        ensures adds { wishes_of self.new ≡ wishes_of self.old ++ wish_for wish.now amount ∷ [] }
        ensures below { self.new.below ≡ self.old.below }
    {
        self.wishes.push(HeldWish {
            literals: Row::of(wish),
            amount,
        });
    }

    fn wish(&self, i: usize) -> Option<&HeldWish>
        ensures { MatchOption result (length (wishes_of self.now) ≤ i) (λ wish. (i < length (wishes_of self.now)) × (wish_of wish.now ≡ slice_index_or (wishes_of self.now) i no_wish)) }
    {
        self.wishes.get(i)
    }
}

impl<C: Case> Case for Wishes<C> {
    ghost meaning = { λ x. wishing (wishes_of x) (C.Case.meaning x.below) };

    ghost limits = { λ x. limited_wishing (wishes_of x) (held_wishes x.wishes) (C.Case.meaning x.below) (C.Case.limits x.below) };

    fn oversize(&self) -> bool {
        self.below.oversize()
    }

    fn options(&self) -> usize {
        self.below.options() + self.wishes.len()
    }

    fn rules(&self) -> usize {
        self.below.rules() + self.wishes.len()
    }

    fn rule_len(&self, r: usize) -> usize {
        let rules = self.below.rules();
        if r < rules {
            return self.below.rule_len(r);
        }
        match self.wish(r - rules) {
            Some(wish) => wish.literals.len() + 1,
            None => 0,
        }
    }

    fn literal(&self, r: usize, j: usize) -> u8 {
        let rules = self.below.rules();
        if r < rules {
            return self.below.literal(r, j);
        }
        let i = r - rules;
        let Some(wish) = self.wish(i) else {
            return 255;
        };
        if j == wish.literals.len() {
            (2 * (self.below.options() + i)) as u8
        } else {
            wish.literals.at(j)
        }
    }

    fn amount(&self, l: u8) -> u32 {
        let first = 2 * self.below.options();
        let place = l as usize;
        if place < first {
            return self.below.amount(l);
        }
        let Some(wish) = self.wish((place - first) / 2) else {
            return 0;
        };
        if l % 2 == 0 { wish.amount } else { 0 }
    }
}
