//! The unit in the middle of a leaf's one item (docs/volume.md, "Leaves").

ghost use Rattle.std.specs.Prelude.{◌≡◌, ℕ, ◌≤◌, length};
ghost use Rattle.r4_base.specs.Cell.{item_units, units_in};
ghost use Rattle.r4_node40.specs.View.{view_block, view_items};
ghost use Rattle.r4_leaf.specs.Items.{IsSoundItem};
ghost use Rattle.r4_leaf.specs.Leaves.{MayStand};
ghost use Rattle.r4_leaf.specs.Units.{IsMiddle};

use crate::cutting::behind;
use r4_base::{ENTRIES, Key};
use r4_cde::DirView;
use r4_node40::NodeView;

/// The key of the unit in the middle of a leaf's one item, which has two units or more: of the byte or the entry before which
/// are half of them, rounded down (docs/volume.md, "Leaves").
pub fn middle_key(leaf: &NodeView<'_>) -> Key
    requires leaf { (lo : ℕ) × (hi : ℕ) × MayStand lo hi (view_block leaf.now).now }
    requires one { length (view_items leaf.now) ≡ 1 }
    requires two { 2 ≤ length (units_in (view_items leaf.now)) }
    ensures { IsMiddle (units_in (view_items leaf.now)) result }
{
    let item = leaf.item(0);
    if item.plugin == ENTRIES {
        return middle_entry(&item.key, item.body);
    }
    behind(&item.key, item.body.len() / 2)
}

/// The key of the entry in the middle of a directory item.
fn middle_entry(key: &Key, body: &[u8]) -> Key
    requires { IsSoundItem (record { key = key.now; plugin = 2; body = body.now }) }
    ensures { IsMiddle (item_units (record { key = key.now; plugin = 2; body = body.now })) result }
{
    let entries = DirView::of_item(key, body);
    entries.entry(entries.len() / 2).key
}
