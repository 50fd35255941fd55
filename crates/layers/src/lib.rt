// Layers: each takes any case below it and is again a case; over an oversize case it is oversize. The tariff and the open
// layer stand here, with what the group and the wish layer share.
#![tactic(auto)]

pub mod laws;
pub mod lists;
pub mod marks;
pub mod opened;
pub mod row;
pub mod setting;
pub mod tariff;
