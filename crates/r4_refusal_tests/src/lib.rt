//! Memory is refused: what stands then is as before, and the same call goes on when it comes again.
//! `tools/refuse.py` runs these tests once for each allocation, which it lets fail. They need few, so
//! that this takes a minute.
#![tactic(auto)]

#[cfg(test)]
mod atoms;
#[cfg(test)]
mod cells;
#[cfg(test)]
mod devices;
#[cfg(test)]
mod holds;
#[cfg(test)]
mod images;
#[cfg(test)]
mod same;
#[cfg(test)]
mod turns;
