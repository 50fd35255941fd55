// One literal of the trail.
ghost use Rattle.std.specs.Prelude.{◌<◌};

// A literal was decided, or forced by the rule at a place among the rules in force and then the learned ones.
// It has the shape of an Option, and stays an enum: no plainer, as None and Some do not say which of the two is the decision.
#[derive(Clone, Copy, PartialEq, Eq, Debug)]
pub enum Reason {
    Decided,
    Forced(u16),
}

#[derive(Clone, Copy)]
pub struct Entry {
    pub literal: u8,
    pub level: u8,
    pub reason: Reason,
    ghost small: { literal < 128 },
}

mod asks;
mod blank;
