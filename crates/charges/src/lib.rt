// The charge of a set of literals, in any kind of charge.
#![tactic(auto)]

pub mod charge;
pub mod fold;
pub mod kinds;
#[cfg(test)]
mod tests;
