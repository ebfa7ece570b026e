//! Tests of volumes that are made and listed, through the program's call.
#![tactic(auto)]

#[cfg(test)]
mod listed;
#[cfg(test)]
mod listings;
#[cfg(test)]
mod reads;
#[cfg(test)]
mod same;
#[cfg(test)]
mod trees;
#[cfg(test)]
mod volumes;
