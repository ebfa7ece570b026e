//! Tests of the words of the command line, and of the lines that no other test prints.
#![tactic(auto)]

#[cfg(test)]
mod chance;
#[cfg(test)]
mod commands;
#[cfg(test)]
mod lines;
#[cfg(test)]
mod same;
