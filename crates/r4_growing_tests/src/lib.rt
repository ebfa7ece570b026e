//! Tests of what commands reach in trees of full nodes, up to the height 8, and in a file of 16,384
//! bytes in leaves (docs/volume.md, "Reach").
#![tactic(auto)]

#[cfg(test)]
mod growing;
#[cfg(test)]
mod reaching;
#[cfg(test)]
mod tails;
