//! Where a task waits before it changes something.

use r4_base::ScriptNo;

/// Is passed once by each change, before it is made, with the script and the index of the task that makes it. No lock
/// is held then. Only in tests may it wait, and there for a stated number of turns.
pub trait Gate: Sync {
    /// Lets the task of that index in that script through.
    fn pass(&self, script: ScriptNo, index: u32);
}

/// A gate that lets everyone through at once.
#[derive(Clone, Copy, Debug, PartialEq, Eq)]
pub struct OpenGate;

impl Gate for OpenGate {
    fn pass(&self, script: ScriptNo, index: u32) {
        let _ = (script, index);
    }
}
