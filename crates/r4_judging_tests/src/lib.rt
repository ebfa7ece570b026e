//! Tests of whether the cells that were met are a part of a tree.
#![tactic(auto)]

#[cfg(test)]
mod cells;
#[cfg(test)]
mod judging;
