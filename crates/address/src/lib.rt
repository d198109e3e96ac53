#![tactic(auto)]

pub mod checks;
pub mod ipv4;
pub mod ipv6;
pub mod kind;
pub mod prefixes;
pub mod refusal;
pub mod text;
