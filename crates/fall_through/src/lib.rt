// A fall-through of two tables: the lower table's routes are visible where the upper has none at or above them.
#![tactic(auto)]

pub mod layer;
pub mod planes;
pub mod refusal;
