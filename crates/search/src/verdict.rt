// What a search has come to.
ghost use Rattle.std.specs.Prelude.{Some};
ghost use Rattle.search.specs.Verdicts.{verdict_text};

use std::fmt;

#[derive(Clone, Copy, PartialEq, Eq, Debug)]
pub enum Verdict {
    // it is not closed
    Open,
    // it is closed, and its best is a cheapest allowed choice
    Cheapest,
    // it is closed, and no choice is allowed
    Impossible,
}

impl fmt::Display for Verdict {
    ghost output = { λ v. Some (verdict_text v) };

    fn fmt<W: fmt::Write>(&self, f: &mut fmt::Formatter<W>) -> fmt::Result {
        let text = match self {
            Verdict::Open => "open",
            Verdict::Cheapest => "cheapest",
            Verdict::Impossible => "impossible",
        };
        write!(f, "{text}")
    }
}
