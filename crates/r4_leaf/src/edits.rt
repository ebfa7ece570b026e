//! A leaf's units with others put in, or without some (docs/volume.md, "Leaves").

ghost use Rattle.std.specs.Prelude.{ℕ, ◌≤◌, IfOk};
ghost use Rattle.r4_base.specs.Cell.{item_end, item_units, units_in};
ghost use Rattle.r4_base.specs.Key.{rank};
ghost use Rattle.r4_node40.specs.View.{view_block, view_items};
ghost use Rattle.r4_leaf.specs.Leaves.{AreApart, AreFew, HaveMkfsId, IsGiven, MayStand, Packs};
ghost use Rattle.r4_leaf.specs.Units.{cut_units, put_units};

use crate::building::{with_item, without};
use crate::leaf::Leaf;
use r4_base::{Key, Memory};
use r4_node40::NodeView;
use std::alloc::Global;

/// The leaves that a leaf becomes where an item is put in, for the range of the leaf, which begins at `lo`. The item is stat
/// data, entries of a directory or bytes of a tail, of 1 to 4030 bytes; no unit of the leaf has a key of one of its units. A
/// unit that continues the one before it stands in its item. A leaf is filled before the next one is begun. All have the
/// given mkfs_id (docs/volume.md, "Leaves").
pub fn put_in(
    alloc: Global,
    leaf: &NodeView<'_>,
    lo: Key,
    mkfs_id: u32,
    key: &Key,
    plugin: u16,
    body: &[u8],
) -> Result<Vec<Leaf>, Memory>
    requires leaf { (hi : ℕ) × MayStand (rank lo) hi (view_block leaf.now).now }
    requires given { IsGiven (record { key = key.now; plugin = plugin; body = body.now }) }
    requires from { rank lo ≤ rank key.now }
    requires apart { AreApart (units_in (view_items leaf.now)) (item_units (record { key = key.now; plugin = plugin; body = body.now })) }
    ensures packs { IfOk result (λ v. (hi : ℕ) → MayStand (rank lo) hi (view_block leaf.now).now → item_end (record { key = key.now; plugin = plugin; body = body.now }) ≤ hi
        → Packs (rank lo) hi (put_units (item_units (record { key = key.now; plugin = plugin; body = body.now })) (units_in (view_items leaf.now))) v.items) }
    ensures few { IfOk result (λ v. AreFew (put_units (item_units (record { key = key.now; plugin = plugin; body = body.now })) (units_in (view_items leaf.now))) v.items) }
    ensures mkfs_id { IfOk result (λ v. HaveMkfsId mkfs_id v.items) }
{
    with_item(alloc, leaf, lo, mkfs_id, *key, plugin, body)
}

/// The leaves that a leaf becomes without its units from one key up to another, for the range of the leaf, which begins at
/// `lo`: mostly one, and two where a part of a tail needs a header of its own for which there is no room. All have the given
/// mkfs_id (docs/volume.md, "Leaves").
pub fn cut_out(
    alloc: Global,
    leaf: &NodeView<'_>,
    lo: Key,
    mkfs_id: u32,
    from: &Key,
    to: &Key,
) -> Result<Vec<Leaf>, Memory>
    requires leaf { (hi : ℕ) × MayStand (rank lo) hi (view_block leaf.now).now }
    ensures packs { IfOk result (λ v. (hi : ℕ) → MayStand (rank lo) hi (view_block leaf.now).now
        → Packs (rank lo) hi (cut_units (rank from.now) (rank to.now) (units_in (view_items leaf.now))) v.items) }
    ensures few { IfOk result (λ v. AreFew (cut_units (rank from.now) (rank to.now) (units_in (view_items leaf.now))) v.items) }
    ensures mkfs_id { IfOk result (λ v. HaveMkfsId mkfs_id v.items) }
{
    without(alloc, leaf, lo, mkfs_id, from, to)
}
