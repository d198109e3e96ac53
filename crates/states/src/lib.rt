// The two states of a stack as types that are moved: a loading stack takes updates, opening it gives a forwarding one.
#![tactic(auto)]

pub mod forwarding;
pub mod loading;
pub mod staged;
