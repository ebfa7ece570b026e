//! Tests of leaves that are edited each as long as what stands suffices (docs/volume.md, "Bodies in
//! extents").
#![tactic(auto)]

#[cfg(test)]
mod steps;
