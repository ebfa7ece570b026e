//! Tests of tables: of holds and of a cache.
#![tactic(auto)]

#[cfg(test)]
mod caches;
#[cfg(test)]
mod holds;
