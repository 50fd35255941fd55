// Piles: cases with layers on them, in any order.
#![tactic(auto)]

pub mod laws;
#[cfg(test)]
mod refusals;
#[cfg(test)]
mod stacks;
