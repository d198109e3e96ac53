// Policies, and a layer that lets only the routes be visible that its policy permits.
#![tactic(auto)]

mod entry;
pub mod layer;
mod matching;
pub mod policy;
pub mod rule;
mod verdict;
