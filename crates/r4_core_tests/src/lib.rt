//! Tests of the core: what is told of jobs that run (docs/core.md).
#![tactic(auto)]

#[cfg(test)]
mod rows;
