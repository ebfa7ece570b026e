//! All edits of a leaf at once (docs/volume.md, "Edits").

ghost use Rattle.std.specs.Prelude.{◌≡◌, ◌+◌, ◌^◌, ◌<◌, ◌≤◌, length, map, reverse, IfOk};
ghost use Rattle.std.specs.Arc.{arc_value};
ghost use Rattle.r4_base.specs.Key.{rank};
ghost use Rattle.r4_base.specs.Node.{mkfs_id_of};
ghost use Rattle.r4_base.specs.Tree.{Root as TreeRoot, Store};
ghost use Rattle.r4_base.specs.Value.{Value};
ghost use Rattle.r4_path.specs.r4_cell.Patch.{IsChange};
ghost use Rattle.r4_path.specs.r4_cell.Seen.{node_of};
ghost use Rattle.r4_path.specs.r4_leaf.Leaves.{HaveMkfsId};
ghost use Rattle.r4_path.specs.r4_leaf.Remade.{AreWithin, CanPutAll, cut_all};
ghost use Rattle.r4_path.specs.r4_leaf.Units.{leaf_bytes};
ghost use Rattle.r4_path.specs.r4_patch.Joining.{patch_of_change};
ghost use Rattle.r4_path.specs.r4_patch.Part.{MeetsPart};
ghost use Rattle.r4_edit.specs.Editing.{AreLeavesOf, EditsUp, extra_for};
ghost use Rattle.r4_edit.specs.Remaking.{IsRemakeIn, after_edits};
ghost use Rattle.r4_path.specs.Steps.{OnlyTakes};

use crate::editing::replace;
use r4_base::{Memory, get32};
use r4_path::{Cell, Change, Fresh, Given, KeyRange, Leaf, remake};
use std::alloc::Global;
use std::sync::Arc;

/// Cuts the units of some ranges of keys out of the leaf of a path, and then puts some items into it: the leaf is built anew
/// once. The path goes from the top down. Where the units that the leaf is to have need more than 4068 bytes, more leaves
/// come, as for `insert`; the path and the fresh numbers are those of the units at the end, whatever is between.
pub fn change_leaf(
    alloc: Global,
    path: &[Arc<Cell>],
    cuts: &[KeyRange],
    items: &[Given<'_>],
    fresh: &mut Fresh,
) -> Result<Change, Memory>
    requires path { (t : Store Value) × ((r : TreeRoot)
        × IsRemakeIn t r (map (λ c. arc_value c) path.now) cuts.now items.now fresh.old) }
    requires numbers { (2 ^ 63 ≤ fresh.old.next)
        × (fresh.old.next + length path.now
        + extra_for (after_edits cuts.now items.now) (map (λ c. arc_value c) path.now)
        < fresh.old.end) }
    ensures change { IfOk result (λ c. IsChange c.old c.new c.root) }
    ensures meets { IfOk result (λ c. (t : Store Value) (r : TreeRoot)
        → IsRemakeIn t r (map (λ x. arc_value x) path.now) cuts.now items.now fresh.old
        → MeetsPart (patch_of_change c) t r) }
    ensures edits { IfOk result (λ c. EditsUp (after_edits cuts.now items.now) fresh.old fresh.new
        c (reverse (map (λ x. arc_value x) path.now))) }
    ensures numbers { OnlyTakes fresh.old fresh.new }
{
    let count = path.len() - 1;
    let leaves = leaves_remade(alloc, &path[count], cuts, items)?;
    replace(alloc, path, leaves, fresh)
}

/// The leaves that a leaf becomes by these edits, with its mkfs_id.
fn leaves_remade(
    alloc: Global,
    leaf: &Cell,
    cuts: &[KeyRange],
    items: &[Given<'_>],
) -> Result<Vec<Leaf>, Memory>
    requires level { leaf.now.level ≡ 1 }
    requires range { rank leaf.now.lo ≤ rank leaf.now.hi }
    requires within { AreWithin (rank leaf.now.lo) (rank leaf.now.hi) items.now }
    requires can { CanPutAll items.now (cut_all cuts.now (node_of leaf.now).units) }
    requires small { leaf_bytes (after_edits cuts.now items.now leaf.now) < 58912 }
    ensures leaves { IfOk result (λ v.
        AreLeavesOf leaf.now (after_edits cuts.now items.now leaf.now) v.items) }
    ensures mkfs_id { IfOk result (λ v. HaveMkfsId (mkfs_id_of leaf.now.block) v.items) }
{
    let mkfs_id = get32(leaf.block().bytes(), 12);
    remake(alloc, &leaf.node(), leaf.lo(), mkfs_id, cuts, items)
}
