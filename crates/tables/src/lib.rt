// The two tables of a search: the rules that it learned, and the conditions that the member added.
#![tactic(auto)]

pub mod conditions;
pub mod learned;
