//! Modes in which nodes are held, and what is said of a node.

ghost use Rattle.std.specs.Prelude.{◌≡◌};
ghost use Rattle.r4_locks.specs.Modes.{conflicts, joined, held_with, left_of, IsCountable};

use r4_base::{Memory as NoMemory, NodeId, TaskId};

/// In which mode a task holds a node. A task that writes a node may read it too.
#[derive(Clone, Copy, Debug, PartialEq, Eq)]
pub enum Mode {
    /// Other tasks may read the node.
    Reads,
    /// No other task holds the node.
    Writes,
}

/// Who holds a node.
#[derive(Clone, Copy, Debug, PartialEq, Eq)]
pub enum Held {
    /// No task.
    Free,
    /// So many tasks read it, at least one, and none writes it.
    Read { tasks: u32 },
    /// This task writes it, and no other holds it.
    Write { by: TaskId },
}

/// Why no node was taken.
#[derive(Clone, Copy, Debug, PartialEq, Eq)]
pub enum TakeFault {
    /// Another task holds a wanted node in a mode that conflicts.
    Busy { node: NodeId, holder: TaskId },
    /// There was no memory.
    Memory,
}

impl From<NoMemory> for TakeFault {
    ghost use Rattle.r4_locks.specs.declared.things.TakeFault.TheVariants.{Memory};

    ghost from_gives = { λ _ fault. fault ≡ Memory };

    fn from(_: NoMemory) -> TakeFault {
        TakeFault::Memory
    }
}

// Whether a node that a task holds in this mode cannot be taken by another one.
pub(crate) fn conflicts(wanted: Mode, mode: Option<Mode>) -> bool
    ensures { result ≡ conflicts wanted mode }
{
    match (wanted, mode) {
        (_, None) | (Mode::Reads, Some(Mode::Reads)) => false,
        _ => true,
    }
}

// The mode in which a task holds a node once it takes it in the wanted mode.
pub(crate) fn joined(mode: Option<Mode>, wanted: Mode) -> Mode
    ensures { result ≡ joined mode wanted }
{
    match mode {
        Some(Mode::Writes) => Mode::Writes,
        _ => wanted,
    }
}

// Who holds a node once a task takes it that held it in this mode.
pub(crate) fn held_with(who: TaskId, mode: Option<Mode>, wanted: Mode, held: Held) -> Held
    requires { IsCountable held mode }
    ensures { result ≡ held_with who mode wanted held }
{
    match (wanted, mode, held) {
        (Mode::Writes, _, _) => Held::Write { by: who },
        (Mode::Reads, Some(_), _) => held,
        (Mode::Reads, None, Held::Free) => Held::Read { tasks: 1 },
        (Mode::Reads, None, Held::Read { tasks }) => Held::Read { tasks: tasks + 1 },
        (Mode::Reads, None, Held::Write { by }) => Held::Write { by },
    }
}

// Who holds a node once a task lets it go that held it in this mode.
pub(crate) fn left_of(mode: Mode, held: Held) -> Held
    ensures { result ≡ left_of mode held }
{
    match (mode, held) {
        (Mode::Reads, Held::Read { tasks }) if tasks > 1 => Held::Read { tasks: tasks - 1 },
        _ => Held::Free,
    }
}
