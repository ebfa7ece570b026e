//! How far one script is.

ghost use Rattle.std.specs.Prelude.{◌≡◌, replicate, IfOk};
ghost use Rattle.r4_turns.specs.Turns.{start};

use crate::out::{Numbers, Out};
use r4_base::{Memory, TaskId, TxnNo};
use std::alloc::Global;

/// The transaction that a script has open, and whether it is that of a single command.
#[derive(Clone, Copy, Debug, PartialEq, Eq)]
pub struct Open {
    pub txn: TxnNo,
    pub single: bool,
}

/// How the next command of a script stands.
#[derive(Clone, Copy, Debug, PartialEq, Eq)]
pub enum Pending {
    /// Each command is answered.
    Nothing,
    /// It waits.
    Next,
    /// It is out as this task.
    Out { task: TaskId },
}

/// How far a script is: how many of its commands are answered, its open transaction, its task that is out, and the numbers
/// that are kept for its next command.
#[derive(Drop)]
pub struct Turn {
    pub answered: u32,
    pub transaction: Option<Open>,
    pub out: Option<Out>,
    pub numbers: Option<Numbers>,
}

// The turns of so many scripts before their first commands.
pub(crate) fn first_turns(alloc: Global, count: usize) -> Result<Vec<Turn>, Memory>
    ensures { IfOk result (λ turns. turns.items ≡ replicate count start) }
{
    let mut turns = Vec::new(alloc);
    for _ in 0..count {
        turns.push(Turn {
            answered: 0,
            transaction: None,
            out: None,
            numbers: None,
        })?;
    }
    Ok(turns)
}
