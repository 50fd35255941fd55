// What is proved of the group layer.
ghost use Rattle.std.specs.Prelude.{◌≡◌, false};
ghost use Rattle.cases.specs.Meanings.{is_oversize};
ghost use Rattle.groups.specs.Groups.{grouped};
ghost use Rattle.groups.specs.Facts.GroupLayers.{groups_of};
ghost use Rattle.groups.specs.GroupLaws.{GroupsHold};

use crate::state::Groups;
use cases::case::Case;

// A choice keeps the rules of a sound group layer exactly if it keeps those below and sets no two options of a group on.
pub fn groups_hold<C: Case>(layer: &Groups<C>)
    ensures { is_oversize (grouped (groups_of layer.now) (C.Case.meaning layer.now.below)) ≡ false → GroupsHold (groups_of layer.now) (C.Case.meaning layer.now.below) }
{}
