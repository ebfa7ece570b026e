//! Tests of texts: of scripts that are read, and of a trace's lines.
#![tactic(auto)]

#[cfg(test)]
mod scripts;
#[cfg(test)]
mod traces;
