//! Tests of names and links, through the program's call (docs/layout.md, "Names"; docs/commands.md).
#![tactic(auto)]

#[cfg(test)]
mod longest;
#[cfg(test)]
mod rows;
