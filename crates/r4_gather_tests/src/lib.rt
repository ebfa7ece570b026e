//! Tests of what commands ask for of a volume and of what they see there, key by key
//! (docs/commands.md, "Asking").
#![tactic(auto)]

#[cfg(test)]
mod entries;
#[cfg(test)]
mod looked;
#[cfg(test)]
mod moves;
#[cfg(test)]
mod objects;
#[cfg(test)]
mod words;
