// The wish layer: wishes that a choice may break at a price.
// Every value of the type keeps the limits of a case, whatever stands below: wishes are held only over a case that has
// their literals and leaves room for them, and a layer that holds none tells what stands below.
ghost use Rattle.std.specs.Prelude.{◌≤◌};
ghost use Rattle.arrayvec.specs.ArrayVec.{array_vec_len};
ghost use Rattle.layers.specs.Layered.{SoundIfHeld};
ghost use Rattle.wishes.specs.Wishes.{wishing};
ghost use Rattle.wishes.specs.WishViews.{wishes_in};

use crate::held::HeldWish;
use arrayvec::ArrayVec;
use cases::case::Case;

// How many wishes a layer can hold.
const MOST_WISHES: usize = 8;

#[derive(Drop)]
pub struct Wishes<C: Case> {
    pub(crate) below: C,
    pub(crate) wishes: ArrayVec<HeldWish, MOST_WISHES>,
    // a clause sees the wishes and not how many fit, so this says it
    ghost few: { array_vec_len wishes ≤ 8 },
    ghost fits: { SoundIfHeld wishing (wishes_in wishes) (C.Case.meaning below) },
}
