// Reading down: what a search over a layer says of the case below. The theorems stand as contracts.
#![tactic(auto)]

ghost use Rattle.readings.specs.Readings.{OpenReadsDown, WishReadsDown};
ghost use Rattle.readings.specs.Examples.{AllRows};
ghost use Rattle.charges.specs.Generic.{kind_of};

use charges::charge::Charge;

// With no condition, the verdict on an open layer is one on the partial choices below, in every kind of charge.
pub fn open_reads_down<K: Charge>()
    ensures { OpenReadsDown (kind_of K.Charge) }
{}

// With no condition, the verdict on a wish layer is one on the choices below and the wishes that they break.
pub fn wish_reads_down<K: Charge>()
    ensures { WishReadsDown (kind_of K.Charge) }
{}

// The worked examples follow from the definitions.
#[tactic(auto, using(crate::proofs::Examples::all_rows))]
pub fn examples_hold()
    ensures { AllRows }
{}
