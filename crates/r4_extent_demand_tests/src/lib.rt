//! Tests of what a command asks of twigs where a body stands in extents.
#![tactic(auto)]

#[cfg(test)]
mod pieces;
