// One step, and whether the search is closed.
ghost use Rattle.std.specs.Prelude.{◌≡◌, not};
ghost use Rattle.std.proofs.Math.Option.{some};
ghost use Rattle.charges.specs.Generic.{kind_of};
ghost use Rattle.charges.specs.Charges.{contents};
ghost use Rattle.calculus.specs.Steps.{empty_set, closed as closed_by, step as step_by};
ghost use Rattle.literals.specs.Members.{member};
ghost use Rattle.steps.specs.Shapes.{conflict_of};
ghost use Rattle.steps.specs.States.{seen, NotedRight};

use crate::backward::backward;
use crate::forward::forward;
use crate::held::Tables;
use crate::literals_of::all_literals;
use cases::case::Case;
use charges::charge::Charge;
use literals::LiteralSet;
use rules::force::Force;

// Whether a conflict set is empty.
fn has_none<P: Case>(pile: &P, set: &LiteralSet) -> bool
    ensures { result ≡ empty_set (contents (P.Case.meaning pile.now)).options (some (member set.now)) }
{
    set.meet(&all_literals(pile)).is_empty()
}

// An empty conflict set closes the search.
#[tactic(auto, unfolding(calculus::specs::Steps::empty_set))]
pub fn is_closed<P: Case>(pile: &P, tables: &Tables) -> bool
    ensures { result ≡ empty_set (contents (P.Case.meaning pile.now)).options (conflict_of tables.now.work.conflict) }
{
    // is_some_and, here and in best_is_not_above, takes a search 7 in 100 more instructions: past the bar of speed
    match tables.work.conflict {
        None => false,
        Some(set) => has_none(pile, &set),
    }
}

// One step of the calculus. Answers whether there was one to make: a closed search stays as it is.
// The answer stays a bool: a closed search is no failure, and an error of one kind would say nothing.
pub fn step<P: Case, K: Charge>(pile: &P, best: &mut Option<K>, tables: &mut Tables) -> bool
    ensures answers { result ≡ not (closed_by (contents (P.Case.meaning pile.now)) (seen (kind_of K.Charge) (P.Case.meaning pile.now) best.old tables.old)) }
    ensures leaves { seen (kind_of K.Charge) (P.Case.meaning pile.now) best.new tables.new ≡ step_by (kind_of K.Charge) (contents (P.Case.meaning pile.now)) (seen (kind_of K.Charge) (P.Case.meaning pile.now) best.old tables.old) }
    ensures notes { NotedRight (P.Case.meaning pile.now) tables.old → NotedRight (P.Case.meaning pile.now) tables.new }
{
    if is_closed(pile, tables) {
        return false;
    }
    let force = Force {
        pile,
        conditions: &tables.conditions,
    };
    match tables.work.conflict {
        None => forward(&force, best, &mut tables.work),
        Some(set) => backward::<P, K>(&force, &mut tables.work, set),
    }
    true
}
