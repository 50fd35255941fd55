// The calculus of the search: its definition, and what is promised of it. The theorems stand as contracts.
#![tactic(auto)]

ghost use Rattle.calculus.specs.Piles.{PromisesKept, CallsContinue};
ghost use Rattle.calculus.specs.Examples.{AllRows};
ghost use Rattle.charges.specs.Generic.{kind_of};

use charges::charge::Charge;

// After every list of calls on every pile within its limits, all that is promised of the search holds.
pub fn promises_kept<K: Charge>()
    ensures { PromisesKept (kind_of K.Charge) }
{}

// A call that leaves what the definition says continues every list of calls before it.
#[tactic(auto, using(crate::proofs::Piles::calls_continue))]
pub fn calls_continue<K: Charge>()
    ensures { CallsContinue (kind_of K.Charge) }
{}

// The worked examples follow from the definitions.
#[tactic(auto, using(crate::proofs::Examples::all_rows))]
pub fn examples_hold()
    ensures { AllRows }
{}
