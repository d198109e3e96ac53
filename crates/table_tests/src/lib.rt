// Tests of tables and stacks of layers by lists of calls.
#![tactic(auto)]

#[cfg(test)]
mod layers;
#[cfg(test)]
mod tables;
