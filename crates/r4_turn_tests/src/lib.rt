//! Tests of turns: the order in which scripts are served, and a command that goes out.
#![tactic(auto)]

#[cfg(test)]
mod turns;
