//! Who holds each node.

ghost use Rattle.std.specs.Prelude.{◌≡◌, ℕ, ◌+◌, ◌<◌, ◌≤◌, [], Some, nat_eq, if◌then◌else◌, IsOk, OnOk};
ghost use Rattle.r4_locks.specs.Modes.{left_of};
ghost use Rattle.r4_locks.specs.Kept.{held_in};

use crate::things::{Held, Mode, left_of};
use r4_base::{Memory, NodeId};
use std::alloc::Global;
use std::collections::HashMap;
use std::marker::Model;

/// Who holds each node; one that has no entry is free.
#[derive(Drop)]
pub(crate) struct NodeHolds {
    holders: HashMap<u64, Held>,
}

impl Model for NodeHolds {
    ghost use Rattle.std.specs.HashMap.{spare};
    ghost use Rattle.r4_locks.specs.Kept.{NodesSeen};

    ghost Value = { NodesSeen };

    ghost view = { λ t. record { holders = t.holders.entries; room = spare t.holders } };
}

impl NodeHolds {
    pub(crate) fn new(alloc: Global) -> NodeHolds
        ensures { result.holders ≡ [] }
    {
        NodeHolds {
            holders: HashMap::new(alloc),
        }
    }

    pub(crate) fn held(&self, node: NodeId) -> Held
        ensures { result ≡ held_in self.now.holders node.0 }
    {
        self.holders.get(&node.0).copied().unwrap_or(Held::Free)
    }

    pub(crate) fn room(&mut self, names: usize) -> Result<(), Memory>
        ensures held { (n : ℕ) → held_in self.new.holders n ≡ held_in self.old.holders n }
        ensures ok { OnOk result (names ≤ self.new.room) }
        ensures succeeds { names ≤ self.old.room → IsOk result }
        ensures room { self.old.room ≤ self.new.room }
    {
        self.holders.reserve(names)
    }

    pub(crate) fn put(&mut self, node: NodeId, held: Held)
        requires { 0 < self.old.room }
        ensures held { (n : ℕ) →
            held_in self.new.holders n ≡ if nat_eq node.0 n then held else held_in self.old.holders n }
        ensures room { self.old.room ≤ self.new.room + 1 }
    {
        let _ = self.holders.insert(node.0, held);
    }

    // A task lets a node go that it held in this mode.
    pub(crate) fn let_go(&mut self, node: NodeId, mode: Mode)
        ensures held { (n : ℕ) → held_in self.new.holders n ≡
            if nat_eq node.0 n then left_of mode (held_in self.old.holders n) else held_in self.old.holders n }
        ensures room { self.old.room ≤ self.new.room }
    {
        match left_of(mode, self.held(node)) {
            Held::Free => {
                let _ = self.holders.remove(&node.0);
            }
            left => {
                if let Some(held) = self.holders.get_mut(&node.0) {
                    *held = left;
                }
            }
        }
    }
}
