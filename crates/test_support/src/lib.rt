// What the tests share: lists of calls with the replies that are due, addresses, policies, stacks, and slots of caches.
#![tactic(auto)]

pub mod steps;
pub mod values;
