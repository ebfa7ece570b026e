//! Tests of changes of a tree: which are joined, and in which node two of them meet.
#![tactic(auto)]

#[cfg(test)]
mod changes;
#[cfg(test)]
mod patches;
#[cfg(test)]
mod same;
