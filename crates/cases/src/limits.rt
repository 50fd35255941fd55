// How large a case may be.
pub const MOST_OPTIONS: usize = 56;

pub const MOST_RULES: usize = 512;

pub const LONGEST_RULE: usize = 24;
