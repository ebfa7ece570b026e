//! Tests of the check of objects, and of trees of more levels, over volumes that were laid by hand.
#![tactic(auto)]

#[cfg(test)]
mod laid;
#[cfg(test)]
mod objects;
#[cfg(test)]
mod towers;
