// A search: the pile and the charge of its best choice by value, and its tables beside them.
ghost use Rattle.steps.specs.States.{NotedRight};

use cases::case::Case;
use charges::charge::Charge;
use steps::held::Tables;

// Each learned row notes whether it is the reason of a literal of the trail.
// No Model, and `stands` in the clauses: a conflict set and a row are functions of numbers, and a Model asks for a coded value.
#[derive(Drop)]
pub struct Search<P: Case, K: Charge> {
    pub(crate) pile: P,
    pub(crate) best: Option<K>,
    pub(crate) tables: Tables,
    ghost noted: { NotedRight (P.Case.meaning pile) tables },
}
