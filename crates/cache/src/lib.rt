// The destination cache: a layer over any table that keeps the answers of earlier lookups in slots of its own.
#![tactic(auto)]

pub mod cache;
pub mod entry;
mod slots;
