// The wish layer: wishes that a choice may break at a price.
#![tactic(auto)]

mod held;
pub mod layer;
pub mod state;
