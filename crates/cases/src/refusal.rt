// Why a call is refused. A refused call changes nothing and writes nothing.
ghost use Rattle.std.specs.Prelude.{◌≡◌};
ghost use Rattle.cases.specs.Refusals.{number_of};

#[derive(Clone, Copy, PartialEq, Eq, Debug)]
pub enum Refusal {
    // the case is too large to be told
    Oversize = 11,
    // there are as many conditions, groups or wishes as can be held
    Full = 12,
    // there is no condition to withdraw
    NothingToWithdraw = 13,
    // there is no best choice yet
    NoBest = 14,
    // a group or a wish would bring too many options or rules
    TooLarge = 16,
    // a condition or a wish of too many literals
    TooLong = 21,
    // a literal or an option that the case doesn't have
    NoSuchLiteral = 22,
    // the buffer is shorter than what is to be written
    ShortBuffer = 23,
    // a group of too few or too many options
    WrongGroupSize = 24,
    // a group whose options don't rise
    NotRising = 25,
}

impl Refusal {
    // The number that the refusal is known by.
    pub fn number(self) -> u8
        ensures { result ≡ number_of self }
    {
        self as u8
    }
}
