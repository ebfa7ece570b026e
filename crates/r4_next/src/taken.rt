//! What is to be done next.

use r4_base::{AtomNo, ScriptNo};
use r4_history::Why;
use r4_served::Task;

/// What there is to do (docs/core.md, "Taking").
#[derive(Drop)]
pub enum Taken {
    /// This task is to be worked at.
    Work(Task),
    /// What came next in this script is answered.
    Replied(ScriptNo),
    /// This atom is to be flushed.
    Flush(AtomNo),
    /// No script can be served: why the first one waits that is not finished.
    Wait(Why),
    /// All scripts are finished.
    Finished,
}

/// What is found of one script.
#[derive(Drop)]
pub(crate) enum Looked {
    /// Each of its commands is answered, and it has no open transaction.
    Finished,
    /// It cannot be taken.
    Waits(Why),
    /// It is served.
    Takes(Taken),
}
