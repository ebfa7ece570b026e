//! Tests of what commands make of volumes: each is built on what it reaches, its change is put in
//! place, and the volume is listed before and after (docs/volume.md, "Building").
#![tactic(auto)]

#[cfg(test)]
mod bytes;
#[cfg(test)]
mod counts;
#[cfg(test)]
mod entries;
#[cfg(test)]
mod growing;
#[cfg(test)]
mod moves;
#[cfg(test)]
mod replies;
#[cfg(test)]
mod rows;
#[cfg(test)]
mod turns;
