// Sum as a kind of charge.
ghost use Rattle.std.specs.Prelude.{◌≡◌, Some, decimal};
ghost use Rattle.charges.specs.SumKind.{sum_of, sum_kind};
ghost use Rattle.charges.specs.Facts.NumberLaws.{sum_laws};

use super::Sum;
use crate::charge::Charge;
use std::fmt;

impl Sum {
    // The charge of a number.
    #[tactic(auto, using(crate::specs::Facts::Same::sum_same), unfolding(crate::specs::SumKind::sum_of))]
    fn of(value: u64) -> Sum
        ensures { result ≡ sum_of value }
    {
        Sum { value }
    }

    // The number that is charged.
    pub fn value(self) -> u64
        ensures { result ≡ self.value }
    {
        self.value
    }
}

impl Charge for Sum {
    ghost zero = { sum_kind.zero };

    ghost price = { sum_kind.price };

    ghost sum = { sum_kind.sum };

    ghost not_above = { sum_kind.not_above };

    ghost laws = { sum_laws };

    fn zero() -> Sum {
        Sum::of(0)
    }

    fn price(amount: u32) -> Sum {
        Sum::of(amount as u64)
    }

    fn sum(self, other: Sum) -> Sum {
        Sum::of(self.value.saturating_add(other.value))
    }

    fn not_above(self, other: Sum) -> bool {
        self <= other
    }
}

impl fmt::Display for Sum {
    ghost output = { λ x. Some (decimal x.value) };

    fn fmt<W: fmt::Write>(&self, f: &mut fmt::Formatter<W>) -> fmt::Result {
        write!(f, "{}", self.value)
    }
}
