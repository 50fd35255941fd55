// What is proved of all layers.
ghost use Rattle.std.specs.Prelude.{List};
ghost use Rattle.charges.specs.Charges.{contents};
ghost use Rattle.charges.specs.Generic.{kind_of};
ghost use Rattle.wishes.specs.Wishes.{Wish};
ghost use Rattle.piles.specs.Charged.{OpenCharged, WishCharged};
ghost use Rattle.piles.specs.Laws.{Alike, LayersAlike};

use cases::case::Case;
use charges::charge::Charge;

// Over two cases that answer alike every layer answers alike: nothing else of the case below counts.
pub fn layers_answer_alike<A: Case, B: Case>(a: &A, b: &B)
    ensures { Alike (A.Case.meaning a.now) (B.Case.meaning b.now) → LayersAlike (A.Case.meaning a.now) (B.Case.meaning b.now) }
{}

// In every kind of charge, a choice of the open layer over this case is charged what the partial choice is that it reads
// down to.
pub fn open_charges<C: Case, K: Charge>(case: &C)
    ensures { OpenCharged (kind_of K.Charge) (contents (C.Case.meaning case.now)) }
{}

// In every kind of charge, a choice of the wish layer over this case whose wish options are exactly the broken ones is
// charged what the choice below is, and the prices of the broken wishes.
pub fn wish_charges<C: Case, K: Charge>(case: &C)
    ensures { (ws : List Wish) → WishCharged (kind_of K.Charge) ws (contents (C.Case.meaning case.now)) }
{}
