// The words of the case file.

// Where the reader stands.
#[derive(Clone, Copy, PartialEq, Eq, Debug)]
pub enum Phase {
    // before the options
    Start,
    Amounts,
    Rules,
    PastEnd,
}

// One field. A rule is a part of the file that is read, a byte for each literal.
#[derive(Clone, Copy, Drop)]
pub enum Field<'a> {
    Options(u16),
    Amount { literal: u8, amount: u32 },
    Rule(&'a [u8]),
    End,
}
