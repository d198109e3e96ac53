// The PATRICIA table: a path-compressed binary trie over a borrowed pool of nodes.
#![tactic(auto)]

pub mod patricia;
