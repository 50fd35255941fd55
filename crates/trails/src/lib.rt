// The trail of a search: the literals that are set for now, each with its level and its reason.
#![tactic(auto)]

pub mod entry;
pub mod trail;
