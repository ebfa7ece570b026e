//! Tests of tables of what may still come.
#![tactic(auto)]

#[cfg(test)]
mod cells;
#[cfg(test)]
mod tables;
