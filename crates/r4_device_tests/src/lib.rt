//! Tests of devices: of one that stops.
#![tactic(auto)]

#[cfg(test)]
mod stops;
