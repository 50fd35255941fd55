// Worst as a kind of charge.
ghost use Rattle.std.specs.Prelude.{◌≡◌, Some, decimal};
ghost use Rattle.charges.specs.WorstKind.{worst_kind};
ghost use Rattle.charges.specs.Facts.NumberLaws.{worst_laws};

use super::Worst;
use crate::charge::Charge;
use std::fmt;

impl Worst {
    // The number that is charged.
    pub fn value(self) -> u32
        ensures { result ≡ self.value }
    {
        self.value
    }
}

impl Charge for Worst {
    ghost zero = { worst_kind.zero };

    ghost price = { worst_kind.price };

    ghost sum = { worst_kind.sum };

    ghost not_above = { worst_kind.not_above };

    ghost laws = { worst_laws };

    fn zero() -> Worst {
        Worst { value: 0 }
    }

    fn price(amount: u32) -> Worst {
        Worst { value: amount }
    }

    fn sum(self, other: Worst) -> Worst {
        Worst {
            value: self.value.max(other.value),
        }
    }

    fn not_above(self, other: Worst) -> bool {
        self <= other
    }
}

impl fmt::Display for Worst {
    ghost output = { λ x. Some (decimal x.value) };

    fn fmt<W: fmt::Write>(&self, f: &mut fmt::Formatter<W>) -> fmt::Result {
        write!(f, "{}", self.value)
    }
}
