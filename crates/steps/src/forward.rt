// A step without a conflict set.
ghost use Rattle.std.specs.Prelude.{◌≡◌, ℕ, ◌<◌, ◌≤◌, length, None, Option};
ghost use Rattle.std.proofs.Math.Option.{none};
ghost use Rattle.charges.specs.Generic.{kind_of};
ghost use Rattle.charges.specs.Charges.{contents};
ghost use Rattle.calculus.specs.Trails.{on};
ghost use Rattle.calculus.specs.Scans.{place};
ghost use Rattle.calculus.specs.States.{clauses};
ghost use Rattle.calculus.specs.Steps.{best_not_above, is_unit, extend_in, by_conflict};
ghost use Rattle.calculus.specs.Calculus.{LowestUnset};
ghost use Rattle.literals.specs.Members.{member};
ghost use Rattle.trails.specs.Trails.{listed};
ghost use Rattle.rules.specs.Force.{all_rules};
ghost use Rattle.steps.specs.Shapes.{Right, Live};
ghost use Rattle.steps.specs.States.{best_seen, working};

use crate::held::Work;
use crate::literals_of::{decision, live_literals, trail_charge};
use cases::case::Case;
use charges::charge::Charge;
use literals::LiteralSet;
use rules::force::{Force, Rules};
use trails::entry::Reason;
use trails::trail::Trail;

// Whether there is a best and it is not above the charge of the trail.
#[tactic(auto, unfolding(calculus::specs::Steps::best_not_above))]
fn best_is_not_above<P: Case, K: Charge>(
    pile: &P,
    best: &Option<K>,
    choice: &LiteralSet,
    trail: &Trail,
) -> bool
    ensures { result ≡ best_not_above (kind_of K.Charge) (contents (P.Case.meaning pile.now)) (best_seen (kind_of K.Charge) (contents (P.Case.meaning pile.now)).options best.now (member choice.now)) (on (listed trail.now)) }
{
    // is_some_and, here and in is_closed, takes a search 7 in 100 more instructions: past the bar of speed
    match best {
        None => false,
        Some(charge) => charge.not_above(trail_charge(pile, trail)),
    }
}

// Propagate: the first rule with one unset literal, its others false, adds it. Else Decide: the lowest unset option, v.
// Here and below `notes` stays a clause, as in backward: how many rules are in force, the work does not know.
fn extend<P: Case, K: Charge>(force: &Force<'_, P>, work: &mut Work, live: &LiteralSet, v: u8)
    requires live { Live force.now.pile.options (listed work.old.trail) (member live.now) }
    requires lowest { LowestUnset force.now.pile.options (listed work.old.trail) v }
    ensures leaves { (b : Option K) → working (kind_of K.Charge) force.now b work.new ≡ extend_in (kind_of K.Charge) force.now.pile (working (kind_of K.Charge) force.now b work.old) (place (is_unit force.now.pile.options (listed work.old.trail)) (clauses force.now.pile (working (kind_of K.Charge) force.now b work.old))) }
    ensures notes { Right (length (all_rules force.now)) work.old → Right (length (all_rules force.now)) work.new }
{
    let base = force.in_force();
    let set = work.trail.literals();
    let rules = Rules {
        force: &*force,
        learned: &work.learned,
    };
    match rules.first_forcing(live, &set) {
        Some((i, l)) => work.push(base, l, Reason::Forced(i as u16)),
        None => work.push(base, decision::<P, K>(force.pile, v), Reason::Decided),
    }
}

pub fn forward<P: Case, K: Charge>(force: &Force<'_, P>, best: &mut Option<K>, work: &mut Work)
    ensures leaves { work.old.conflict ≡ None → working (kind_of K.Charge) force.now best.new work.new ≡ by_conflict (kind_of K.Charge) force.now.pile (working (kind_of K.Charge) force.now best.old work.old) none }
    ensures notes { Right (length (all_rules force.now)) work.old → Right (length (all_rules force.now)) work.new }
{
    let live = live_literals(force.pile, &work.trail);
    let rules = Rules {
        force: &*force,
        learned: &work.learned,
    };
    if let Some(i) = rules.first_missing(&live) {
        let set = rules.clause(i);
        work.conflict_with(set);
        return;
    }
    if best_is_not_above(force.pile, best, &work.choice, &work.trail) {
        let set = work.trail.complements();
        work.conflict_with(set);
        return;
    }
    let set = work.trail.literals();
    match live.without(&set).first() {
        Some(lowest) => extend::<P, K>(force, work, &live, lowest / 2),
        None => {
            *best = Some(trail_charge(force.pile, &work.trail));
            work.improve(set);
        }
    }
}
