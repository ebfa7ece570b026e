//! Tests of what commands read and write of a volume with room, in tails and in extents
//! (docs/volume.md, "Reach").
#![tactic(auto)]

#[cfg(test)]
mod bytes;
#[cfg(test)]
mod damage;
#[cfg(test)]
mod entries;
#[cfg(test)]
mod extents;
#[cfg(test)]
mod meeting;
#[cfg(test)]
mod moves;
#[cfg(test)]
mod rows;
