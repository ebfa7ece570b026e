//! Tests of what is built of a task: the change and the reply (docs/volume.md, "Building").
#![tactic(auto)]

#[cfg(test)]
mod building;
