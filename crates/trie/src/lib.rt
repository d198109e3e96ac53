// A path-compressed binary trie in a pool of nodes: what the nodes mean, searches in it, and the laws of changing it in place.
#![tactic(auto)]

pub mod laws;
pub mod links;
pub mod node;
pub mod search;
