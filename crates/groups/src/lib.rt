// The group layer: of each group of options no two are on.
#![tactic(auto)]

pub mod laws;
pub mod layer;
mod pairs;
mod rising;
pub mod state;
