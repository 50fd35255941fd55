// What the conditions are asked, and what is done to them.
ghost use Rattle.std.specs.Prelude.{◌≡◌, ◌<◌, ◌≤◌, [], ◌∷◌, ◌++◌, length, if◌then◌else◌, slice_index_or};
ghost use Rattle.calculus.specs.Scans.{all_but_last};
ghost use Rattle.tables.specs.Conditions.{conditions_of, literals_of, can_hold};

use super::{Condition, Conditions, LONGEST_CONDITION};
use layers::lists::past_all;
use layers::row::Row as Literals;
use literals::SPAN;
use shortlists::short_list::ShortList;
use std::alloc::AllocError;

// Written out: a derive is no plainer, as the default is said in the condition's own word `literals_of`.
impl Default for Condition {
    ghost is_default = { λ condition. literals_of condition ≡ [] };

    fn default() -> Condition {
        Condition {
            literals: Literals::empty(),
        }
    }
}

// Written out and not derived, so that an edit can try a wrong one. It never fails.
impl Clone for Conditions {
    ghost is_clone = { λ conditions copy. copy ≡ conditions };

    ghost is_infallible = { λ _. Unit };

    fn clone(&self) -> Result<Conditions, AllocError> {
        Ok(*self)
    }
}

impl Conditions {
    #[tactic(auto, unfolding(crate::specs::Conditions::conditions_of))]
    pub fn empty() -> Conditions
        ensures { conditions_of result ≡ [] }
    {
        Conditions {
            held: ShortList::empty(Condition::default()),
        }
    }

    #[tactic(auto, unfolding(crate::specs::Conditions::conditions_of))]
    pub fn len(&self) -> usize
        ensures value { result ≡ length (conditions_of self.now) }
        ensures few { result ≤ 32 }
    {
        self.held.len()
    }

    // How many literals condition i has; 0 where there is no such condition.
    // 0 and no Option: it is handed on as `Case::rule_len` answers it.
    #[tactic(auto, unfolding(crate::specs::Conditions::conditions_of))]
    pub fn rule_len(&self, i: usize) -> usize
        ensures { result ≡ length (slice_index_or (conditions_of self.now) i []) }
    {
        self.held.get(i).map_or(0, |held| held.literals.len())
    }

    // The literal at place j of condition i; 255 where there is none.
    // 255 and no Option: it is handed on as `Case::literal` answers it.
    #[tactic(auto, unfolding(crate::specs::Conditions::conditions_of))]
    pub fn literal(&self, i: usize, j: usize) -> u8
        ensures answers { result ≡ slice_index_or (slice_index_or (conditions_of self.now) i []) j 255 }
        ensures small { j < length (slice_index_or (conditions_of self.now) i []) → result < 128 }
    {
        self.held.get(i).map_or(255, |held| held.literals.at(j))
    }

    // One condition more. Refused where there are as many as can be held, where it has too many literals and where a
    // number of it is no literal of any case: then nothing changes.
    // The answer stays a bool, no plainer as a Result: the definition `can_hold` tells no cause, and the one caller drops the answer.
    #[tactic(auto, unfolding(crate::specs::Conditions::conditions_of))]
    pub fn hold(&mut self, literals: &[u8]) -> bool
        ensures answers { result ≡ can_hold (conditions_of self.old) literals.now }
        ensures leaves { conditions_of self.new ≡ (if result then conditions_of self.old ++ literals.now ∷ [] else conditions_of self.old) }
    {
        if self.held.is_full()
            || literals.len() > LONGEST_CONDITION
            || past_all(literals) > SPAN as usize
        {
            return false;
        }
        let literals = Literals::of(literals);
        self.held.push(Condition { literals });
        true
    }

    // The newest condition goes.
    #[tactic(auto, using(crate::proofs::Facts::last_gone), unfolding(crate::specs::Conditions::conditions_of))]
    pub fn let_go(&mut self)
        ensures { conditions_of self.new ≡ all_but_last (conditions_of self.old) }
    {
        self.held.pop();
    }
}
