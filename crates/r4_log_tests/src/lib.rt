//! Tests of logs and devices, through the program's call.
#![tactic(auto)]

#[cfg(test)]
mod calls;
#[cfg(test)]
mod counting;
#[cfg(test)]
mod logs;
#[cfg(test)]
mod replays;
#[cfg(test)]
mod same;
#[cfg(test)]
mod tables;
#[cfg(test)]
mod tests;
