//! Tests of runs on images that were changed by hand, through the program's call (docs/program.md,
//! "Running"): with numbers at their ends, with a tree that cannot grow, with a
//! file below many twigs, and damaged.
#![tactic(auto)]

#[cfg(test)]
mod changed;
#[cfg(test)]
mod file;
#[cfg(test)]
mod rows;
#[cfg(test)]
mod tall;
#[cfg(test)]
mod tree;
#[cfg(test)]
mod turned;
