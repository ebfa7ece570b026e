//! The nodes that one task holds.

ghost use Rattle.std.specs.Prelude.{◌≡◌, ℕ, ◌+◌, ◌<◌, ◌≤◌, [], Some, nat_eq, if◌then◌else◌, IsOk, OnOk};
ghost use Rattle.std.specs.Map.{lookup};

use crate::things::Mode;
use r4_base::{Memory, NodeId};
use std::alloc::Global;
use std::collections::HashMap;
use std::marker::Model;

/// The nodes that a task holds, by their numbers, each with its mode.
#[derive(Drop)]
pub(crate) struct TaskHolds {
    pub(crate) modes: HashMap<u64, Mode>,
}

impl Model for TaskHolds {
    ghost use Rattle.std.specs.HashMap.{spare};
    ghost use Rattle.r4_locks.specs.Locks.{TaskSeen};

    ghost Value = { TaskSeen };

    ghost view = { λ t. record { holds = t.modes.entries; room = spare t.modes } };
}

impl TaskHolds {
    pub(crate) fn new(alloc: Global) -> TaskHolds
        ensures { result.holds ≡ [] }
    {
        TaskHolds {
            modes: HashMap::new(alloc),
        }
    }

    pub(crate) fn mode(&self, node: NodeId) -> Option<Mode>
        ensures { result ≡ lookup (nat_eq node.0) self.now.holds }
    {
        self.modes.get(&node.0).copied()
    }

    pub(crate) fn room(&mut self, names: usize) -> Result<(), Memory>
        ensures holds { (n : ℕ) →
            lookup (nat_eq n) self.new.holds ≡ lookup (nat_eq n) self.old.holds }
        ensures ok { OnOk result (names ≤ self.new.room) }
        ensures succeeds { names ≤ self.old.room → IsOk result }
        ensures room { self.old.room ≤ self.new.room }
    {
        self.modes.reserve(names)
    }

    pub(crate) fn put(&mut self, node: NodeId, mode: Mode)
        requires { 0 < self.old.room }
        ensures holds { (n : ℕ) →
            lookup (nat_eq n) self.new.holds ≡ if nat_eq node.0 n then Some mode else lookup (nat_eq n) self.old.holds }
        ensures room { self.old.room ≤ self.new.room + 1 }
    {
        let _ = self.modes.insert(node.0, mode);
    }
}

/// A task to come, with room for the nodes that it is to hold; contracts see for how many.
#[derive(Drop)]
pub struct NewTask {
    pub(crate) holds: TaskHolds,
}

impl Model for NewTask {
    ghost use Rattle.std.specs.Prelude.{◌≡◌, ℕ, None, nat_eq};
    ghost use Rattle.std.specs.Map.{lookup};

    ghost Value = { ℕ };

    ghost view = { λ t. t.holds.room };

    ghost invariant = { λ t. (n : ℕ) → lookup (nat_eq n) t.holds.holds ≡ None };
}
