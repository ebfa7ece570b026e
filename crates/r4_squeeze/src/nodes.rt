//! Nodes above the twigs that are filled from the left (docs/volume.md, "Squeezing").

ghost use Rattle.std.specs.Prelude.{◌≡◌, ◌≤◌, ℕ, length, OnOk};
ghost use Rattle.r4_squeeze.specs.Items.{items_meant};
ghost use Rattle.r4_squeeze.specs.Packing.{AddsNodes, ArePointers};

use crate::filled::Filled;
use crate::items::{NodeItem, node_of};
use r4_base::Memory;
use std::alloc::Global;

/// How many pointers a node has room for.
const POINTERS: usize = 88;

/// Puts nodes of these pointers, of which there is one at least, behind the others: each is full before the next one is
/// begun.
pub fn pack_nodes(
    alloc: Global,
    level: u8,
    mkfs_id: u32,
    items: &[NodeItem<'_>],
    filled: &mut Vec<Filled>,
) -> Result<(), Memory>
    requires level { (3 ≤ level) × (level ≤ 8) }
    requires some { 1 ≤ length items.now }
    requires pointers { (hi : ℕ) × ArePointers level hi (items_meant items.now) }
    ensures { OnOk result ((hi : ℕ) → ArePointers level hi (items_meant items.now)
        → AddsNodes level mkfs_id (items_meant items.now) filled.old.items
        filled.new.items) }
{
    let count = items.len().min(POINTERS);
    let (mine, behind) = items.split_at(count);
    filled.push(Filled {
        lo: mine[0].key(),
        block: node_of(alloc, level, mkfs_id, mine)?,
    })?;
    if behind.is_empty() {
        return Ok(());
    }
    pack_nodes(alloc, level, mkfs_id, behind, filled)
}
