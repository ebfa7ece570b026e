//! Tests of the generated workload.
#![tactic(auto)]

#[cfg(test)]
mod parts;
