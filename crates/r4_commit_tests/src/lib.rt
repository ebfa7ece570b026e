//! Tests of commits that are written step by step, and of what a replay makes of them.
#![tactic(auto)]

#[cfg(test)]
mod commits;
#[cfg(test)]
mod same;
