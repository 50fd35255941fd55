// Lists that hold few items in the value itself, and can be copied.
#![tactic(auto)]

pub mod short_list;
