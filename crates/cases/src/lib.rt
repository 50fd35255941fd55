// What a case is: literals, rules and choices, the six questions that any case answers, and the ladder.
#![tactic(auto)]

pub mod case;
pub mod choices;
pub mod ladder;
pub mod limits;
pub mod literals;
pub mod refusal;
pub mod summary;
