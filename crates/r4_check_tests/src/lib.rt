//! Tests of the check of a tree, over fresh volumes that were damaged.
#![tactic(auto)]

#[cfg(test)]
mod damaged;
