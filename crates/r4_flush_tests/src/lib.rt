//! Tests of the core: atoms that are flushed and committed (docs/core.md, "Flushing" and "A commit").
#![tactic(auto)]

#[cfg(test)]
mod stops;
