// What adding a condition does.
ghost use Rattle.std.specs.Prelude.{◌≡◌};
ghost use Rattle.std.proofs.Math.Option.{none};
ghost use Rattle.charges.specs.Generic.{kind_of};
ghost use Rattle.charges.specs.Charges.{contents};
ghost use Rattle.calculus.specs.Checks.{add_check};
ghost use Rattle.calculus.specs.Calls.{breaks as breaks_rule, added};
ghost use Rattle.tables.specs.Conditions.{conditions_of};
ghost use Rattle.search.specs.Stands.{stands};
ghost use Rattle.search.specs.Inner.Changes.{forgetting};

use crate::restarts::restart;
use crate::search::Search;
use cases::case::Case;
use charges::charge::Charge;

impl<P: Case, K: Charge> Search<P, K> {
    // If the best breaks the rule, the best and all learned rules go.
    fn forget_broken(&mut self, literals: &[u8])
        ensures leaves { stands (kind_of K.Charge) (P.Case.meaning self.old.pile) self.new ≡ forgetting (breaks_rule (stands (kind_of K.Charge) (P.Case.meaning self.old.pile) self.old).best literals.now) (stands (kind_of K.Charge) (P.Case.meaning self.old.pile) self.old) }
        ensures holds { self.new.tables.conditions ≡ self.old.tables.conditions }
        ensures pile { self.new.pile ≡ self.old.pile }
    {
        if self.breaks(literals) {
            self.best = None;
            self.tables.work.learned.clear();
        }
    }

    // A condition that has passed the checks is held, and the search begins again.
    pub(crate) fn take_in(&mut self, literals: &[u8])
        requires { add_check (contents (P.Case.meaning self.old.pile)) (conditions_of self.old.tables.conditions) literals.now ≡ none }
        ensures leaves { stands (kind_of K.Charge) (P.Case.meaning self.old.pile) self.new ≡ added (stands (kind_of K.Charge) (P.Case.meaning self.old.pile) self.old) literals.now (breaks_rule (stands (kind_of K.Charge) (P.Case.meaning self.old.pile) self.old).best literals.now) }
        ensures pile { self.new.pile ≡ self.old.pile }
    {
        self.forget_broken(literals);
        let _ = self.tables.conditions.hold(literals);
        restart(&mut self.tables.work);
    }
}
