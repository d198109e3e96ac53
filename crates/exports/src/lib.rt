// Tables for C and Rust to link, over numbers and bytes: tests and benchmarks run through them.
#![tactic(auto)]

mod bytes;
mod c;
mod load;
mod tables;
mod wire;
