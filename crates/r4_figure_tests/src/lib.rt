//! Tests of a large space with many atoms, and of the places that cells get.
#![tactic(auto)]

#[cfg(test)]
mod figures;
#[cfg(test)]
mod places;
#[cfg(test)]
mod same;
#[cfg(test)]
mod spaces;
