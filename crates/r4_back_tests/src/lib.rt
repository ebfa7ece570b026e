//! Tests of the core: tasks that come back late, changed or without a change, and commands that are
//! refused by themselves (docs/core.md, "Coming back" and "A job that grows").
#![tactic(auto)]

#[cfg(test)]
mod breaking;
#[cfg(test)]
mod coming_back;
#[cfg(test)]
mod refusing;
#[cfg(test)]
mod sending;
