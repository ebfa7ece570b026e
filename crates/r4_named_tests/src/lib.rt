//! A test of a run whose beginning is named (docs/program.md, "Running").
#![tactic(auto)]

#[cfg(test)]
mod named;
