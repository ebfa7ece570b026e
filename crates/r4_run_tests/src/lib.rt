//! Tests of the command `run`, through the program's call (docs/program.md, "Running").
#![tactic(auto)]

#[cfg(test)]
mod generated;
#[cfg(test)]
mod limits;
#[cfg(test)]
mod rows;
#[cfg(test)]
mod threads;
