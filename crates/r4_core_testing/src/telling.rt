//! What is told of a run: the lines of its trace, and between them where it had to wait.

use r4_apply::Core;
use r4_base::TaskId;
use r4_history::Why;
use r4_outside::{MemoryDevice, Unnamed};
use r4_trace::{Trace, line};
use std::alloc::Global;
use std::test::Fail;

/// What was told so far, and how many entries of the trace are in it.
#[derive(Drop)]
pub struct Log {
    /// The lines, each ended by a line feed.
    pub lines: Vec<u8>,
    told: u64,
}

impl Log {
    /// Nothing was told.
    pub fn new(alloc: Global) -> Log {
        Log {
            lines: Vec::new(alloc),
            told: 0,
        }
    }

    /// The entries that came since are told.
    pub(crate) fn tell(&mut self, alloc: Global, trace: &Trace) -> Result<(), Fail> {
        for at in self.told..trace.len() {
            line(alloc, trace.entry(at), &mut self.lines)?;
        }
        self.told = trace.len();
        Ok(())
    }

    /// A word and a number are told.
    pub(crate) fn say(&mut self, alloc: Global, word: &str, number: u32) -> Result<(), Fail> {
        let text = format!(in alloc; "{word}{number}\n")?;
        self.lines.extend_from_slice(text.as_bytes())?;
        Ok(())
    }

    /// It is told that all scripts are finished.
    pub(crate) fn say_end(&mut self) -> Result<(), Fail> {
        self.lines.extend_from_slice(b"finished\n")?;
        Ok(())
    }

    /// It is told why all scripts wait: for which script's task, or for which atom.
    pub(crate) fn say_why(
        &mut self,
        alloc: Global,
        core: &Core<MemoryDevice, Unnamed>,
        why: Why,
    ) -> Result<(), Fail> {
        match why {
            Why::Out { task } => self.say(alloc, "wait out s", holder_of(core, task)),
            Why::Held { node, holder } => {
                let text = format!(in alloc; "wait held n{} s", node.0)?;
                self.say(alloc, text.as_str(), holder_of(core, holder))
            }
            Why::Sealed { atom } => self.say(alloc, "wait sealed a", atom.0),
            Why::Open { atom, txn } => {
                let text = format!(in alloc; "wait open a{} t", atom.0)?;
                self.say(alloc, text.as_str(), txn.0)
            }
        }
    }
}

// The script whose task this is, or 0.
fn holder_of(core: &Core<MemoryDevice, Unnamed>, task: TaskId) -> u32 {
    match core.turns().find(task) {
        Some(script) => script.0,
        None => 0,
    }
}
