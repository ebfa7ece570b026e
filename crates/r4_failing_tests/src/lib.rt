//! Tests of runs of which a call of the source, the sink or the device fails, and on images that are
//! none, through the program's call (docs/program.md, "Lines and statuses").
#![tactic(auto)]

#[cfg(test)]
mod faults;
