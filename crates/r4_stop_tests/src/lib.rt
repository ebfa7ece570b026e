//! Tests of stops: mkfs and replay, stopped at each of their writes.
#![tactic(auto)]

#[cfg(test)]
mod images;
#[cfg(test)]
mod stops;
#[cfg(test)]
mod tape;
