// A step with a conflict set.
ghost use Rattle.std.specs.Prelude.{◌≡◌, ℕ, ◌*◌, length, Option};
ghost use Rattle.cases.specs.Literals.{complement};
ghost use Rattle.charges.specs.Generic.{kind_of};
ghost use Rattle.charges.specs.Charges.{contents};
ghost use Rattle.calculus.specs.Scans.{greatest};
ghost use Rattle.calculus.specs.Trails.{level_of};
ghost use Rattle.calculus.specs.Changes.{resolved};
ghost use Rattle.calculus.specs.States.{clause as clause_at};
ghost use Rattle.calculus.specs.Steps.{others, can_backtrack, back, backward as backward_by};
ghost use Rattle.literals.specs.Members.{member};
ghost use Rattle.trails.specs.Trails.{listed};
ghost use Rattle.rules.specs.Force.{all_rules, all_clauses};
ghost use Rattle.steps.specs.Shapes.{Right, Asserted};
ghost use Rattle.steps.specs.States.{working};

use crate::held::Work;
use crate::literals_of::all_literals;
use cases::case::Case;
use cases::literals::opposite;
use charges::charge::Charge;
use literals::LiteralSet;
use rules::force::{Force, Rules};
use trails::entry::Reason;
use trails::trail::Trail;

// The one literal of the set that has the trail's level, if there is just one and the level is not 0.
fn asserted<P: Case>(pile: &P, trail: &Trail, set: &LiteralSet) -> Option<u8>
    ensures { Asserted (contents (P.Case.meaning pile.now)).options (listed trail.now) (member set.now) result }
{
    if trail.level() == 0 {
        return None;
    }
    trail
        .top_complements()
        .meet(set)
        .meet(&all_literals(pile))
        .only()
}

// The set with the complement of the literal replaced by the other literals of its reason.
fn resolvent<P: Case>(
    rules: &Rules<'_, P>,
    set: &LiteralSet,
    literal: u8,
    place: usize,
) -> LiteralSet
    ensures { (x : ℕ) → member result x ≡ resolved (member set.now) literal (clause_at (all_clauses rules.now.force.now rules.now.learned.now) place) x }
{
    let mut rest = *set;
    rest.remove(opposite(literal));
    let mut reason = rules.clause(place);
    reason.remove(literal);
    rest.union(&reason);
    rest
}

// Skip: the trail's last literal goes if its complement is not in the set. Else Resolve.
// Here and below `notes` stays a clause and no invariant of Work: how many rules are in force, the work does not know.
// The rules in force and the work stay two parameters, here and in forward: one is read, one changes, and one struct is no plainer.
fn unwind<P: Case, K: Charge>(force: &Force<'_, P>, work: &mut Work, set: LiteralSet)
    ensures leaves { (b : Option K) → working (kind_of K.Charge) force.now b work.new ≡ back force.now.pile (working (kind_of K.Charge) force.now b work.old) (member set) (listed work.old.trail) }
    ensures notes { Right (length (all_rules force.now)) work.old → Right (length (all_rules force.now)) work.new }
{
    let Some(top) = work.trail.top() else {
        return;
    };
    let base = force.in_force();
    if !set.has(opposite(top.literal)) {
        work.pop(base, top, set);
        return;
    }
    if let Reason::Forced(place) = top.reason {
        let rules = Rules {
            force: &*force,
            learned: &work.learned,
        };
        let rest = resolvent(&rules, &set, top.literal, place as usize);
        work.pop(base, top, rest);
    }
}

// The greatest level of the other literals of the set, or 0.
fn level_below<P: Case>(pile: &P, trail: &Trail, set: &LiteralSet, literal: u8) -> u8
    ensures { result ≡ greatest (2 * (contents (P.Case.meaning pile.now)).options) (others (member set.now) literal) (λ x. level_of (listed trail.now) (complement x)) }
{
    let mut rest = set.meet(&all_literals(pile));
    rest.remove(literal);
    trail.greatest_level(&rest)
}

// Backtrack, if the set has just one literal of the trail's level, and that is not 0. Else Skip or Resolve.
// Compiled apart: forward has nearly all of a search's time, and beside this its loops over the rules run out of registers.
#[inline(never)]
pub fn backward<P: Case, K: Charge>(force: &Force<'_, P>, work: &mut Work, set: LiteralSet)
    ensures leaves { (b : Option K) → working (kind_of K.Charge) force.now b work.new ≡ backward_by force.now.pile (working (kind_of K.Charge) force.now b work.old) (member set) (can_backtrack force.now.pile.options (listed work.old.trail) (member set)) }
    ensures notes { Right (length (all_rules force.now)) work.old → Right (length (all_rules force.now)) work.new }
{
    match asserted(force.pile, &work.trail, &set) {
        Some(literal) => {
            let i = level_below(force.pile, &work.trail, &set, literal);
            work.backtrack(force.in_force(), set, literal, i);
        }
        None => unwind::<P, K>(force, work, set),
    }
}
