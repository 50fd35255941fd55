// The steps of a search over any pile, in any kind of charge.
#![tactic(auto)]

mod backward;
mod changes;
mod forward;
pub mod held;
mod literals_of;
pub mod step;
