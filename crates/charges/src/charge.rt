// A kind of charge: what it answers, and the laws that it keeps.
ghost use Rattle.std.specs.Prelude.{◌≡◌, ℕ, Bool};
ghost use Rattle.charges.specs.Kinds.{kind, Laws};

pub trait Charge: Copy {
    ghost zero: { Self };

    // The price of each amount.
    ghost price: { ℕ → Self };

    ghost sum: { Self → Self → Self };

    // Whether the first charge is not above the second.
    ghost not_above: { Self → Self → Bool };

    fn zero() -> Self
        ensures { result ≡ zero };

    fn price(amount: u32) -> Self
        ensures { result ≡ price amount };

    fn sum(self, other: Self) -> Self
        ensures { result ≡ sum self other };

    // No body here, though each kind's is `self <= other`: it would ask an order of each kind, and a law that ties it to `not_above`.
    fn not_above(self, other: Self) -> bool
        ensures { result ≡ not_above self other };

    // A kind of charge keeps the laws of a kind.
    ghost laws: { Laws (kind Self zero price sum not_above) };
}
