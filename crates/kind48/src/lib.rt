#![tactic(auto)]

pub mod mac;
