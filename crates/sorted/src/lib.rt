// The sorted list: a table over a borrowed slice of rows, in rising order of their prefixes.
#![tactic(auto)]

pub mod list;
pub mod row;
mod search;
mod shift;
