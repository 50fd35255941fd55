// Steps, one after another.
ghost use Rattle.std.specs.Prelude.{◌≡◌};
ghost use Rattle.charges.specs.Generic.{kind_of};
ghost use Rattle.charges.specs.Charges.{contents};
ghost use Rattle.calculus.specs.Runs.{run_steps, steps_made};
ghost use Rattle.search.specs.Stands.{stands};

use crate::search::Search;
use cases::case::Case;
use charges::charge::Charge;
use steps::step::step;

impl<P: Case, K: Charge> Search<P, K> {
    // Steps until the search is closed or the budget is made; answers how many were made.
    pub(crate) fn steps_up_to(&mut self, budget: u64) -> u64
        ensures answers { result ≡ steps_made (kind_of K.Charge) (contents (P.Case.meaning self.old.pile)) budget (stands (kind_of K.Charge) (P.Case.meaning self.old.pile) self.old) }
        ensures leaves { stands (kind_of K.Charge) (P.Case.meaning self.old.pile) self.new ≡ run_steps (kind_of K.Charge) (contents (P.Case.meaning self.old.pile)) budget (stands (kind_of K.Charge) (P.Case.meaning self.old.pile) self.old) }
        ensures pile { self.new.pile ≡ self.old.pile }
    {
        // the number of turns is the answer, so it is counted: a find whose test changes the search is no plainer
        for made in 0..budget {
            if !step(&self.pile, &mut self.best, &mut self.tables) {
                return made;
            }
        }
        budget
    }
}
