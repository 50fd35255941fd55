// The three kinds of charge.
ghost use Rattle.std.specs.Prelude.{◌^◌, ◌<◌};

// What all literals come to. Sums stop at the greatest number.
#[derive(Clone, Copy, PartialEq, Eq, PartialOrd, Ord)]
pub struct Sum {
    value: u64,
    ghost fits: { value < 2 ^ 64 },
}

// What the dearest literal comes to. One generic type with Sum would be no plainer: width, sum, what must fit and the laws differ, so all four
// would be its parameters.
#[derive(Clone, Copy, PartialEq, Eq, PartialOrd, Ord)]
pub struct Worst {
    value: u32,
}

// Guarantees lost and pence, compared in that order.
#[derive(Clone, Copy, PartialEq, Eq, PartialOrd, Ord)]
pub struct Ranked {
    lost: u32,
    pence: u32,
    ghost lost_fits: { lost < 2 ^ 32 },
    ghost pence_fits: { pence < 2 ^ 32 },
}

mod ranks;
mod sums;
mod worsts;
