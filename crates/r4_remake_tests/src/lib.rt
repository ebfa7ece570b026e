//! Tests of all edits of a leaf at once: which cells come, and how many items and free bytes they have (docs/volume.md, "Edits").
#![tactic(auto)]

#[cfg(test)]
mod together;
