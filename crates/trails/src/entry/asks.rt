// What a reason is asked.
ghost use Rattle.std.specs.Prelude.{◌≡◌, ◌<◌};
ghost use Rattle.calculus.specs.Trails.{opened};
ghost use Rattle.calculus.specs.Learned.{is_place, moved};
ghost use Rattle.trails.specs.Entries.{reason_of};

use super::Reason;

impl Reason {
    // The level after a literal with this reason, where k is the level before it.
    pub(crate) fn opens(self, k: u8) -> u8
        requires { k < 255 }
        ensures { result ≡ opened (reason_of self) k }
    {
        match self {
            Reason::Decided => k + 1,
            Reason::Forced(_) => k,
        }
    }

    // Whether the rule at this place is the reason.
    #[tactic(auto, unfolding(calculus::specs::Learned::is_place))]
    pub(crate) fn is_place(self, place: usize) -> bool
        ensures { result ≡ is_place (reason_of self) place }
    {
        matches!(self, Reason::Forced(p) if usize::from(p) == place)
    }

    // The reason once the rule at the place `gone` has left: the later ones have moved down by one.
    #[tactic(auto, unfolding(calculus::specs::Learned::moved))]
    pub(crate) fn renamed(self, gone: usize) -> Reason
        ensures { reason_of result ≡ moved gone (reason_of self) }
    {
        match self {
            Reason::Forced(i) if usize::from(i) > gone => Reason::Forced(i - 1),
            same => same,
        }
    }
}
