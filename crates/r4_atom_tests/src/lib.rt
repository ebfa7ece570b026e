//! Tests of atoms: of their transactions and the nodes that they own, and of the atoms that own what a command reaches.
#![tactic(auto)]

#[cfg(test)]
mod atoms;
#[cfg(test)]
mod others;
