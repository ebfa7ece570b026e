//! Tests of nodes, items and cells.
#![tactic(auto)]

#[cfg(test)]
mod cells;
#[cfg(test)]
mod entries;
#[cfg(test)]
mod items;
#[cfg(test)]
mod nodes;
#[cfg(test)]
mod same;
