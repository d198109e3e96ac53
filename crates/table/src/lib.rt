// The table interface, the calls as values, `run`, which carries the promise over whole lists of calls, and what tables of one plane
// have in common.
#![tactic(auto)]

pub mod borrowed;
pub mod calls;
pub mod interface;
pub mod one_plane;
pub mod run;
