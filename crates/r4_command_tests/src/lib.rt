//! Commands one after another, each planned on what the ones before it made.
#![tactic(auto)]

#[cfg(test)]
mod commands;
#[cfg(test)]
mod contents;
