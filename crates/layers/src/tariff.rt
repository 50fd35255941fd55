// The tariff layer: the amounts below become classes.
ghost use Rattle.std.specs.Prelude.{◌≡◌};
ghost use Rattle.layers.specs.Tariffs.{tariffed};
ghost use Rattle.layers.specs.Facts.Tariffs.{limited_tariffed};

use cases::case::Case;

const CLASSES: [u32; 16] = [0, 1, 2, 3, 5, 8, 12, 18, 27, 40, 60, 90, 135, 200, 300, 450];

#[derive(Drop)]
pub struct Tariff<C> {
    below: C,
}

impl<C: Case> Tariff<C> {
    // Each layer has a `new` and a `below` of its own: they name its fields, so a trait would only say them twice.
    pub fn new(below: C) -> Tariff<C>
        ensures { result.below ≡ below }
    {
        Tariff { below }
    }

    // The case below, from which a choice that was read down can be read further down.
    pub fn below(&self) -> &C
        ensures { result.now ≡ self.now.below }
    {
        &self.below
    }
}

impl<C: Case> Case for Tariff<C> {
    ghost meaning = { λ x. tariffed (C.Case.meaning x.below) };

    ghost limits = { λ x. limited_tariffed (C.Case.meaning x.below) (C.Case.limits x.below) };

    fn oversize(&self) -> bool {
        self.below.oversize()
    }

    fn options(&self) -> usize {
        self.below.options()
    }

    fn rules(&self) -> usize {
        self.below.rules()
    }

    fn rule_len(&self, r: usize) -> usize {
        self.below.rule_len(r)
    }

    fn literal(&self, r: usize, j: usize) -> u8 {
        self.below.literal(r, j)
    }

    fn amount(&self, l: u8) -> u32 {
        CLASSES[self.below.amount(l).min(15) as usize]
    }
}
