//! Tests of plans: the commits of atoms, and the crashes within them, through the program's call.
#![tactic(auto)]

#[cfg(test)]
mod plans;
#[cfg(test)]
mod same;
