//! That what was built of a task that is out is what its command means in every run that names its
//! beginning: what a step of the core asks of a change (docs/core.md, "Little steps").
#![tactic(auto)]
