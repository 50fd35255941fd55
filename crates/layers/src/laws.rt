// What is proved of the open layer.
ghost use Rattle.std.specs.Prelude.{◌≡◌, false};
ghost use Rattle.cases.specs.Meanings.{is_oversize};
ghost use Rattle.layers.specs.Opens.{opened};
ghost use Rattle.layers.specs.OpenLaws.{ReadsDown};

use crate::opened::Open;
use cases::case::Case;

// The choices that keep the rules of a sound open layer are the partial choices that keep the rules below.
pub fn open_reads_down<C: Case>(layer: &Open<C>)
    ensures { is_oversize (opened (C.Case.meaning layer.now.below)) ≡ false → ReadsDown (C.Case.meaning layer.now.below) }
{}
