// The calls on a search. Each contract says what the call answers, what it leaves, and, for every list of calls that led
// to the search, what is promised after this one. `pile` stays a clause of each, here, in acts and in runs: it is an effect of a call
// and no fact of a value, so no invariant says it.
ghost use Rattle.std.specs.Prelude.{◌≡◌, [], length};
ghost use Rattle.charges.specs.Generic.{kind_of};
ghost use Rattle.calculus.specs.Calls.{add as add_call, withdraw as withdraw_call, run as run_call, read as read_call, tally as tally_call, buffer_after};
ghost use Rattle.calculus.specs.Piles.{answer_on};
ghost use Rattle.search.specs.Stands.{stands};
ghost use Rattle.search.specs.Replies.{done, run_reply, read_reply, tally_reply};
ghost use Rattle.search.specs.Histories.{KeepsPromises, MadeBy};

use crate::choices::{chosen, write_marks};
use crate::restarts::restart;
use crate::search::Search;
use crate::verdict::Verdict;
use cases::case::Case;
use cases::refusal::Refusal;
use charges::charge::Charge;
use steps::held::Tables;

impl<P: Case, K: Charge> Search<P, K> {
    // A new search over a pile, which it takes with it.
    pub fn new(pile: P) -> Search<P, K>
        ensures history { KeepsPromises (kind_of K.Charge) (P.Case.meaning pile) [] result }
        ensures pile { result.pile ≡ pile }
    {
        Search {
            pile,
            best: None,
            tables: Tables::new(),
        }
    }

    // Steps until the search is closed or the budget is made. Answers the steps made, and the verdict.
    pub fn run(&mut self, budget: u64) -> Result<(u64, Verdict), Refusal>
        ensures answers { result ≡ run_reply (answer_on (kind_of K.Charge) (P.Case.meaning self.old.pile) (stands (kind_of K.Charge) (P.Case.meaning self.old.pile) self.old) (run_call budget)) }
        ensures history { MadeBy (kind_of K.Charge) (P.Case.meaning self.old.pile) self.old self.new (run_call budget) }
        ensures pile { self.new.pile ≡ self.old.pile }
    {
        if self.pile.oversize() {
            return Err(Refusal::Oversize);
        }
        let made = self.steps_up_to(budget);
        Ok((made, self.verdict()))
    }

    // Appends a condition: a rule that the choice has to keep as well.
    pub fn add(&mut self, literals: &[u8]) -> Result<(), Refusal>
        ensures answers { result ≡ done (answer_on (kind_of K.Charge) (P.Case.meaning self.old.pile) (stands (kind_of K.Charge) (P.Case.meaning self.old.pile) self.old) (add_call literals.now)) }
        ensures history { MadeBy (kind_of K.Charge) (P.Case.meaning self.old.pile) self.old self.new (add_call literals.now) }
        ensures pile { self.new.pile ≡ self.old.pile }
    {
        self.check_add(literals)?;
        self.take_in(literals);
        Ok(())
    }

    // Removes the newest condition.
    pub fn withdraw(&mut self) -> Result<(), Refusal>
        ensures answers { result ≡ done (answer_on (kind_of K.Charge) (P.Case.meaning self.old.pile) (stands (kind_of K.Charge) (P.Case.meaning self.old.pile) self.old) withdraw_call) }
        ensures history { MadeBy (kind_of K.Charge) (P.Case.meaning self.old.pile) self.old self.new withdraw_call }
        ensures pile { self.new.pile ≡ self.old.pile }
    {
        self.check_withdraw()?;
        self.tables.conditions.let_go();
        self.tables.work.learned.clear();
        restart(&mut self.tables.work);
        Ok(())
    }

    // Writes 1 or 0 for each option of the best into the first bytes of the buffer, and answers its charge. Bytes after
    // them stay.
    pub fn read(&self, out: &mut [u8]) -> Result<K, Refusal>
        ensures answers { result ≡ read_reply (answer_on (kind_of K.Charge) (P.Case.meaning self.now.pile) (stands (kind_of K.Charge) (P.Case.meaning self.now.pile) self.now) (read_call (length out.old))) }
        ensures writes { out.new ≡ buffer_after (answer_on (kind_of K.Charge) (P.Case.meaning self.now.pile) (stands (kind_of K.Charge) (P.Case.meaning self.now.pile) self.now) (read_call (length out.old))) out.old }
        ensures history { MadeBy (kind_of K.Charge) (P.Case.meaning self.now.pile) self.now self.now (read_call (length out.old)) }
    {
        if self.pile.oversize() {
            return Err(Refusal::Oversize);
        }
        let charge = self.best.ok_or(Refusal::NoBest)?;
        let n = self.pile.options();
        if out.len() < n {
            return Err(Refusal::ShortBuffer);
        }
        let choice = chosen(&self.tables.work.choice);
        write_marks(&choice[..n], out);
        Ok(charge)
    }

    // The conflicts and the steps since the counts were last zeroed.
    pub fn tally(&self) -> Result<(u64, u64), Refusal>
        ensures answers { result ≡ tally_reply (answer_on (kind_of K.Charge) (P.Case.meaning self.now.pile) (stands (kind_of K.Charge) (P.Case.meaning self.now.pile) self.now) tally_call) }
        ensures history { MadeBy (kind_of K.Charge) (P.Case.meaning self.now.pile) self.now self.now tally_call }
    {
        if self.pile.oversize() {
            return Err(Refusal::Oversize);
        }
        Ok((self.tables.work.conflicts, self.tables.work.steps))
    }
}
