// The search over any pile, in any kind of charge: its calls, and the promises that they carry.
#![tactic(auto)]

mod acts;
mod asks;
pub mod calls;
mod choices;
mod restarts;
mod runs;
pub mod search;
pub mod verdict;
