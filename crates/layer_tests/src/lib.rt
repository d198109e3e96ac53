// Tests of the layers at their limits, and of stacks of all three at an address kind of 48 bits.
#![tactic(auto)]

#[cfg(test)]
mod mac48;
#[cfg(test)]
mod planes;
#[cfg(test)]
mod policies;
