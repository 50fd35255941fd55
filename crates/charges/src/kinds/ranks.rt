// Ranked as a kind of charge.
ghost use Rattle.std.specs.Prelude.{◌≡◌, ◌++◌, Some, codes, decimal};
ghost use Rattle.charges.specs.RankedKind.{ranked_of, ranked_kind};
ghost use Rattle.charges.specs.Facts.RankedLaws.{ranked_laws};

use super::Ranked;
use crate::charge::Charge;
use std::fmt;

// The pence of an amount are below this number: they are its low 24 bits.
const PENCE_LIMIT: u32 = 1 << 24;

impl Ranked {
    // The charge of two numbers.
    #[tactic(auto, using(crate::specs::Facts::Same::ranked_same), unfolding(crate::specs::RankedKind::ranked_of))]
    fn of(lost: u32, pence: u32) -> Ranked
        ensures { result ≡ ranked_of lost pence }
    {
        Ranked { lost, pence }
    }

    // The guarantees lost.
    pub fn lost(self) -> u32
        ensures { result ≡ self.lost }
    {
        self.lost
    }

    // The pence.
    pub fn pence(self) -> u32
        ensures { result ≡ self.pence }
    {
        self.pence
    }
}

impl Charge for Ranked {
    ghost zero = { ranked_kind.zero };

    ghost price = { ranked_kind.price };

    ghost sum = { ranked_kind.sum };

    ghost not_above = { ranked_kind.not_above };

    ghost laws = { ranked_laws };

    fn zero() -> Ranked {
        Ranked::of(0, 0)
    }

    fn price(amount: u32) -> Ranked {
        Ranked::of(amount / PENCE_LIMIT, amount % PENCE_LIMIT)
    }

    fn sum(self, other: Ranked) -> Ranked {
        let Some(lost) = self.lost.checked_add(other.lost) else {
            return Ranked::of(u32::MAX, u32::MAX);
        };
        Ranked::of(lost, self.pence.saturating_add(other.pence))
    }

    fn not_above(self, other: Ranked) -> bool {
        self <= other
    }
}

impl fmt::Display for Ranked {
    ghost output = { λ x. Some (decimal x.lost ++ (codes " " ++ decimal x.pence)) };

    fn fmt<W: fmt::Write>(&self, f: &mut fmt::Formatter<W>) -> fmt::Result {
        write!(f, "{} {}", self.lost, self.pence)
    }
}
