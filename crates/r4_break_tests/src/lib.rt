//! A test of the core: a sync of a commit fails while tasks are out that were taken behind its sealing
//! (docs/core.md, "A commit").
#![tactic(auto)]

#[cfg(test)]
mod breaking;
#[cfg(test)]
mod stepping;
