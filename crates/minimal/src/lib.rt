// The smallest table: room for one route, kept in its own memory.
#![tactic(auto)]

pub mod one_route;
