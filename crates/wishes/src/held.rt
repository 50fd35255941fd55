// A wish as the layer holds it.
ghost use Rattle.std.specs.Prelude.{◌^◌, ◌<◌};

use layers::row::Row;

#[derive(Clone, Copy)]
pub struct HeldWish {
    pub literals: Row,
    pub amount: u32,
    ghost fits: { amount < 2 ^ 32 },
}

mod none;
