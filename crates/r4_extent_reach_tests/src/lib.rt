//! Tests of what commands read and write where bodies stand in extents (docs/volume.md, "Reach").
#![tactic(auto)]

#[cfg(test)]
mod bodies;
#[cfg(test)]
mod emptied;
#[cfg(test)]
mod long;
#[cfg(test)]
mod nine;
#[cfg(test)]
mod rows;
#[cfg(test)]
mod trees;
