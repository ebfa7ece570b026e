//! Tests of extents over holes and of the turn: which cells come, and how many items and free bytes
//! they have (docs/volume.md, "Edits").
#![tactic(auto)]

#[cfg(test)]
mod blocks;
#[cfg(test)]
mod filling;
#[cfg(test)]
mod many;
#[cfg(test)]
mod raising;
#[cfg(test)]
mod tests;
#[cfg(test)]
mod turning;
