//! Tests of the text that a source gives.
#![tactic(auto)]

#[cfg(test)]
mod reading;
