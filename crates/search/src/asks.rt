// What a search is asked by its own calls.
ghost use Rattle.std.specs.Prelude.{◌≡◌, ◌≤◌};
ghost use Rattle.charges.specs.Generic.{kind_of};
ghost use Rattle.charges.specs.Charges.{contents};
ghost use Rattle.calculus.specs.Runs.{verdict as verdict_by};
ghost use Rattle.calculus.specs.Calls.{breaks as breaks_rule, add as add_call, withdraw as withdraw_call};
ghost use Rattle.calculus.specs.Piles.{answer_on};
ghost use Rattle.literals.specs.Members.{member};
ghost use Rattle.steps.specs.States.{best_seen};
ghost use Rattle.search.specs.Stands.{stands};
ghost use Rattle.search.specs.Replies.{verdict_of, done};

use crate::choices::{chosen, sets_one};
use crate::search::Search;
use crate::verdict::Verdict;
use cases::case::Case;
use cases::refusal::Refusal;
use charges::charge::Charge;
use layers::lists::past_all;
use steps::step::is_closed;
use tables::conditions::{LONGEST_CONDITION, MOST_CONDITIONS};

impl<P: Case, K: Charge> Search<P, K> {
    pub(crate) fn verdict(&self) -> Verdict
        ensures { result ≡ verdict_of (verdict_by (contents (P.Case.meaning self.now.pile)) (stands (kind_of K.Charge) (P.Case.meaning self.now.pile) self.now)) }
    {
        if !is_closed(&self.pile, &self.tables) {
            return Verdict::Open;
        }
        // two verdicts of the two variants: map_or is no plainer
        match self.best {
            Some(_) => Verdict::Cheapest,
            None => Verdict::Impossible,
        }
    }

    // Whether there is a best and it sets none of the literals.
    pub(crate) fn breaks(&self, literals: &[u8]) -> bool
        ensures { result ≡ breaks_rule (best_seen (kind_of K.Charge) (contents (P.Case.meaning self.now.pile)).options self.now.best (member self.now.tables.work.choice)) literals.now }
    {
        self.best.is_some()
            && {
                let n = self.pile.options();
                let choice = chosen(&self.tables.work.choice);
                !sets_one(&choice[..n], literals)
            }
    }

    // What is wrong with adding a condition, the first thing in the order of checks.
    pub(crate) fn check_add(&self, literals: &[u8]) -> Result<(), Refusal>
        ensures { result ≡ done (answer_on (kind_of K.Charge) (P.Case.meaning self.now.pile) (stands (kind_of K.Charge) (P.Case.meaning self.now.pile) self.now) (add_call literals.now)) }
    {
        if self.pile.oversize() {
            Err(Refusal::Oversize)
        } else if literals.len() > LONGEST_CONDITION {
            Err(Refusal::TooLong)
        } else if past_all(literals) > 2 * self.pile.options() {
            Err(Refusal::NoSuchLiteral)
        } else if self.tables.conditions.len() >= MOST_CONDITIONS {
            Err(Refusal::Full)
        } else {
            Ok(())
        }
    }

    // The same of withdrawing one.
    pub(crate) fn check_withdraw(&self) -> Result<(), Refusal>
        ensures { result ≡ done (answer_on (kind_of K.Charge) (P.Case.meaning self.now.pile) (stands (kind_of K.Charge) (P.Case.meaning self.now.pile) self.now) withdraw_call) }
    {
        if self.pile.oversize() {
            Err(Refusal::Oversize)
        } else if self.tables.conditions.len() == 0 {
            Err(Refusal::NothingToWithdraw)
        } else {
            Ok(())
        }
    }
}
