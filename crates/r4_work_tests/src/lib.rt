//! Tests of what each leaf gets of a command's edits, and of the cells of a task, looked for by
//! their keys (docs/volume.md, "Building").
#![tactic(auto)]

#[cfg(test)]
mod leaves;
#[cfg(test)]
mod working;
