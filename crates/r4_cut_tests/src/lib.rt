//! Tests of runs whose device stops (docs/program.md, "A stop that is asked for").
#![tactic(auto)]

#[cfg(test)]
mod cuts;
#[cfg(test)]
mod stops;
