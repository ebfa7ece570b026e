//! Tests of the cells in memory, and of what one step reads through them.
#![tactic(auto)]

#[cfg(test)]
mod cells;
#[cfg(test)]
mod pools;
#[cfg(test)]
mod rules;
