// What the tour programs share: sample prefixes and addresses of each kind, lists of calls, and how calls, replies and slots are printed.
#![tactic(auto)]

pub mod calls;
pub mod print;
pub mod samples;
pub mod slots;
pub mod stacks;
pub mod walk;
