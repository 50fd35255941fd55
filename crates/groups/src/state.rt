// The group layer: of each group of options no two are on.
// Every value of the type keeps the limits of a case, whatever stands below: groups are held only over a case that has
// their options and leaves room for their pairs, and a layer that holds none tells what stands below.
ghost use Rattle.std.specs.Prelude.{◌≡◌, ◌≤◌, length};
ghost use Rattle.layers.specs.Layered.{SoundIfHeld};
ghost use Rattle.arrayvec.specs.ArrayVec.{array_vec_len};
ghost use Rattle.groups.specs.Groups.{group_rules, grouped};
ghost use Rattle.groups.specs.GroupViews.{lists_of};

use arrayvec::ArrayVec;
use cases::case::Case;
use layers::row::Row;

// How many groups a layer can hold.
const MOST_GROUPS: usize = 4;

#[derive(Drop)]
pub struct Groups<C: Case> {
    pub(crate) below: C,
    pub(crate) groups: ArrayVec<Row, MOST_GROUPS>,
    // the rules that the groups add
    pub(crate) pairs: usize,
    // a clause sees the groups and not how many fit, so this says it
    ghost few: { array_vec_len groups ≤ 4 },
    ghost paired: { pairs ≡ length (group_rules (lists_of groups)) },
    ghost fits: { SoundIfHeld grouped (lists_of groups) (C.Case.meaning below) },
}
