//! Tests of space.
#![tactic(auto)]

#[cfg(test)]
mod same;
#[cfg(test)]
mod spaces;
