// Changes of a trie in its pool of nodes, in place: a route is put in or taken out, nodes are linked, split and released.
// A rule of the project: link, split and release are functions over the slice of nodes, with how many are in use beside it.
#![tactic(auto)]

pub mod edit;
mod plan;
mod release;
