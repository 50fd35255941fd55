// Sets of literals and charges, from a pile and a trail. These stay two parameters, here and in forward and backward: the one is the
// search's and the other the work's, and a struct of both is no plainer.
ghost use Rattle.std.specs.Prelude.{◌≡◌, ℕ, ◌*◌, ◌<◌, ◌≤◌, nat_lt};
ghost use Rattle.charges.specs.Generic.{kind_of};
ghost use Rattle.charges.specs.Charges.{contents, price_of, charge};
ghost use Rattle.calculus.specs.Trails.{on};
ghost use Rattle.calculus.specs.Changes.{decision as decision_of};
ghost use Rattle.literals.specs.Members.{member};
ghost use Rattle.trails.specs.Trails.{listed};
ghost use Rattle.steps.specs.Shapes.{Live};

use cases::case::Case;
use charges::charge::Charge;
use charges::fold::charge_of;
use literals::LiteralSet;
use trails::trail::Trail;

// All literals of the pile's options.
pub fn all_literals<P: Case>(pile: &P) -> LiteralSet
    ensures { (x : ℕ) → member result x ≡ nat_lt x (2 * (contents (P.Case.meaning pile.now)).options) }
{
    LiteralSet::below((2 * pile.options()) as u8)
}

// Those that the trail does not make false.
pub fn live_literals<P: Case>(pile: &P, trail: &Trail) -> LiteralSet
    ensures { Live (contents (P.Case.meaning pile.now)).options (listed trail.now) (member result) }
{
    all_literals(pile).without(&trail.complements())
}

// The charge of the literals on the trail.
pub fn trail_charge<P: Case, K: Charge>(pile: &P, trail: &Trail) -> K
    ensures { result ≡ charge (kind_of K.Charge) (contents (P.Case.meaning pile.now)) (on (listed trail.now)) }
{
    // a buffer with its length: `list` is public and stays, and a list of its own would ask for a second function that says the same
    let mut list = [0u8; 56];
    let len = trail.list(&mut list);
    charge_of(pile, &list[0..len])
}

fn price<P: Case, K: Charge>(pile: &P, l: u8) -> K
    ensures { result ≡ price_of (kind_of K.Charge) (contents (P.Case.meaning pile.now)) l }
{
    K::price(pile.amount(l))
}

// How option v is decided: on if the price of on is strictly below that of off, else off.
pub fn decision<P: Case, K: Charge>(pile: &P, v: u8) -> u8
    requires { v < 64 }
    ensures { result ≡ decision_of (kind_of K.Charge) (contents (P.Case.meaning pile.now)) v }
{
    let on: K = price(pile, 2 * v);
    let off: K = price(pile, 2 * v + 1);
    if off.not_above(on) { 2 * v + 1 } else { 2 * v }
}
