// What stands in a place that holds no wish.
ghost use Rattle.std.specs.Prelude.{◌≡◌};
ghost use Rattle.wishes.specs.WishViews.{wish_of};
ghost use Rattle.wishes.specs.Facts.Wishes.{no_wish};

use super::HeldWish;
use layers::row::Row;

// Written out, as no `Default` is derived beside a ghost field.
impl Default for HeldWish {
    ghost is_default = { λ wish. wish_of wish ≡ no_wish };

    fn default() -> HeldWish {
        HeldWish {
            literals: Row::empty(),
            amount: 0,
        }
    }
}
