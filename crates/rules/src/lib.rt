// The rules that a search goes by: those in force, which are the pile's and then the conditions, and after them the
// learned ones; and looking through them, in this order.
#![tactic(auto)]

pub mod force;
pub mod scan;
