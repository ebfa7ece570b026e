//! Tests of what a command sees of a volume.
#![tactic(auto)]

#[cfg(test)]
mod seeing;
