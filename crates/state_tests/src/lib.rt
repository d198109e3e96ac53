// Tests of the two states of a stack.
#![tactic(auto)]

#[cfg(test)]
mod stages;
