#![tactic(auto)]

mod arithmetic;
pub mod front;
pub mod halves;
pub mod laws;
