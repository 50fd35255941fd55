// The ladder case: a row of options, each of which asks for the one before it.
ghost use Rattle.std.specs.Prelude.{◌≡◌, ◌^◌, ◌<◌};
ghost use Rattle.cases.specs.Ladders.{ladder_meaning};
ghost use Rattle.cases.specs.Facts.Ladders.{limited_ladder};

use crate::case::Case;
use crate::limits::MOST_OPTIONS;

#[derive(Clone, Copy)]
pub struct Ladder {
    steps: u32,
    on: u32,
    off: u32,
    ghost on_fits: { on < 2 ^ 32 },
    ghost off_fits: { off < 2 ^ 32 },
}

impl Ladder {
    // A ladder of so many steps; setting a step on has the amount `on`, setting it off the amount `off`.
    pub fn new(steps: u32, on: u32, off: u32) -> Ladder
        ensures steps { result.steps ≡ steps }
        ensures on { result.on ≡ on }
        ensures off { result.off ≡ off }
    {
        Ladder { steps, on, off }
    }
}

impl Case for Ladder {
    ghost meaning = { λ x. ladder_meaning x.steps x.on x.off };

    ghost limits = { λ x. limited_ladder x.steps x.on x.off x.on_fits x.off_fits };

    fn oversize(&self) -> bool {
        self.steps as usize > MOST_OPTIONS
    }

    fn options(&self) -> usize {
        if self.oversize() {
            0
        } else {
            self.steps as usize
        }
    }

    #[tactic(auto, using(crate::specs::Facts::Ladders::tells_rules))]
    fn rules(&self) -> usize {
        self.options().saturating_sub(1)
    }

    #[tactic(auto, using(crate::specs::Facts::Ladders::tells_rule))]
    fn rule_len(&self, r: usize) -> usize {
        if r < self.rules() { 2 } else { 0 }
    }

    #[tactic(auto, using(crate::specs::Facts::Ladders::few_rules, crate::specs::Facts::Ladders::tells_literal))]
    fn literal(&self, r: usize, j: usize) -> u8 {
        // 255 and no Option: it is what `Case::literal` answers where there is none
        if r >= self.rules() {
            return 255;
        }
        match j {
            0 => (2 * (r + 1) + 1) as u8,
            1 => (2 * r) as u8,
            _ => 255,
        }
    }

    #[tactic(auto, using(crate::specs::Facts::Ladders::tells_amount, crate::specs::Facts::Ladders::limited_ladder, crate::specs::Facts::Limits::amount_out))]
    fn amount(&self, l: u8) -> u32 {
        if l as usize >= 2 * self.options() {
            0
        } else if l % 2 == 0 {
            self.on
        } else {
            self.off
        }
    }
}
