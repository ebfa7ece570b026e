//! Tests of twigs: of pieces that are packed into them, and read again.
#![tactic(auto)]

#[cfg(test)]
mod packing;
