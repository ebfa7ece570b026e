//! Leaves that are built anew of pieces (docs/volume.md, "Leaves").

ghost use Rattle.std.specs.Prelude.{◌≡◌, ℕ, ◌≤◌, IfOk};
ghost use Rattle.r4_base.specs.Cell.{item_end, item_units, units_in};
ghost use Rattle.r4_base.specs.Key.{rank};
ghost use Rattle.r4_node40.specs.View.{view_block, view_items};
ghost use Rattle.r4_leaf.specs.Items.{IsSoundItem, Lie};
ghost use Rattle.r4_leaf.specs.Leaves.{AreApart, HaveMkfsId, IsGiven, Packs};
ghost use Rattle.r4_leaf.specs.Units.{cut_units, put_units};

use crate::cutting::cut_pieces;
use crate::leaf::Leaf;
use crate::merging::put_pieces;
use crate::packing::pack;
use crate::reading::{add_item, pieces_of};
use r4_base::{Key, Memory};
use r4_node40::NodeView;
use std::alloc::Global;

/// Leaves of the units of a leaf and of an item, for a range that begins at `lo`.
pub(crate) fn with_item<'a>(
    alloc: Global,
    leaf: &NodeView<'a>,
    lo: Key,
    mkfs_id: u32,
    key: Key,
    plugin: u16,
    body: &'a [u8],
) -> Result<Vec<Leaf>, Memory>
    requires leaf { (hi : ℕ) × Lie (rank lo) hi (view_items leaf.now) }
    requires given { IsGiven (record { key = key; plugin = plugin; body = body.now }) }
    requires from { rank lo ≤ rank key }
    requires apart { AreApart (units_in (view_items leaf.now)) (item_units (record { key = key; plugin = plugin; body = body.now })) }
    ensures packs { IfOk result (λ v. (hi : ℕ) → Lie (rank lo) hi (view_items leaf.now) → item_end (record { key = key; plugin = plugin; body = body.now }) ≤ hi
        → Packs (rank lo) hi (put_units (item_units (record { key = key; plugin = plugin; body = body.now })) (units_in (view_items leaf.now))) v.items) }
    ensures mkfs_id { IfOk result (λ v. HaveMkfsId mkfs_id v.items) }
    ensures sound { IfOk result (λ v. IsSoundItem (record { key = key; plugin = plugin; body = body.now })) }
{
    let pieces = pieces_of(alloc, leaf)?;
    let mut given = Vec::new(alloc);
    add_item(&mut given, key, plugin, body)?;
    let all = put_pieces(alloc, pieces, given)?;
    pack(alloc, lo, mkfs_id, all)
}

/// Leaves of the units of a leaf but those from one key up to another, for a range that begins at `lo`.
pub(crate) fn without(
    alloc: Global,
    leaf: &NodeView<'_>,
    lo: Key,
    mkfs_id: u32,
    from: &Key,
    to: &Key,
) -> Result<Vec<Leaf>, Memory>
    requires { (hi : ℕ) × Lie (rank lo) hi (view_items leaf.now) }
    ensures packs { IfOk result (λ v. (hi : ℕ) → Lie (rank lo) hi (view_items leaf.now)
        → Packs (rank lo) hi (cut_units (rank from.now) (rank to.now) (units_in (view_items leaf.now))) v.items) }
    ensures mkfs_id { IfOk result (λ v. HaveMkfsId mkfs_id v.items) }
{
    let pieces = pieces_of(alloc, leaf)?;
    let left = cut_pieces(alloc, pieces, from, to)?;
    pack(alloc, lo, mkfs_id, left)
}
