//! Tests of slums that are packed to the left (docs/volume.md, "Squeezing"), and of what is gathered below one twig
//! ("Bodies in extents").
#![tactic(auto)]

#[cfg(test)]
mod gathering;
#[cfg(test)]
mod nodes;
#[cfg(test)]
mod slums;
