//! Whether what stands suffices for the edits of a leaf (docs/volume.md, "Bodies in extents").

ghost use Rattle.std.specs.Prelude.{◌≡◌, ◌+◌, ◌-◌, ◌*◌, ◌^◌, ◌<◌, ◌≤◌, IfOk, List, map, min, true};
ghost use Rattle.std.specs.Arc.{arc_value};
ghost use Rattle.r4_base.specs.Key.{rank};
ghost use Rattle.r4_base.specs.Node.{items_of};
ghost use Rattle.r4_base.specs.Tree.{Root as TreeRoot, Store};
ghost use Rattle.r4_base.specs.Value.{Value};
ghost use Rattle.r4_build.specs.r4_leaf.Units.{LeafUnit, leaf_bytes};
ghost use Rattle.r4_build.specs.r4_leaf_edits.Made.{AreOfLeaf};
ghost use Rattle.r4_build.specs.r4_measure.r4_cell.Patch.{root_of_pair};
ghost use Rattle.r4_build.specs.r4_measure.r4_cell.Seen.{node_of};
ghost use Rattle.r4_build.specs.r4_measure.r4_cell.declared.change.Fresh.{Fresh as FreshSeen};
ghost use Rattle.r4_build.specs.r4_measure.r4_edit.Remaking.{after_edits};
ghost use Rattle.r4_build.specs.r4_path.Levels.{IsLongEnough};
ghost use Rattle.r4_build.specs.r4_path.Nodes.{weight};
ghost use Rattle.r4_build.specs.r4_work.Remaking.{CanEdit, IsRemakable};
ghost use Rattle.r4_build.specs.r4_work.Working.{IsWorking, path_of, root_of};
ghost use Rattle.r4_leaf_steps.specs.Editing.{AreForRange};

use r4_base::{Key, Memory, NODE_ROOM, NodeId};
use r4_build::{KeyRange, WorkingSet};
use r4_cell::{Cell, Fresh, Root};
use r4_leaf::{Given, bytes_after};
use r4_leaf_demands::{POINTER_ROOM, node_bytes};
use std::alloc::Global;
use std::sync::Arc;

/// So many bytes at most are shared out to leaves, as `remake` of r4_leaf does it.
const MOST_BYTES: u64 = 58_911;

/// A leaf comes beside another one for so many bytes at least that are too many for it.
const BYTES_FOR_LEAF: u64 = 1024;

/// So many leaves at most come beside one.
const MOST_LEAVES: u64 = 15;

/// A root is parted below this level.
const MOST_LEVEL: u8 = 8;

/// Whether the leaf that stands where this one was may be edited so: it has the same range, its
/// units fit afterwards or the cells above it suffice for what comes beside it, and there are
/// numbers for all. The only error is want of memory (docs/volume.md, "Bodies in extents").
pub(crate) fn may_edit(
    alloc: Global,
    set: &WorkingSet,
    root: &Root,
    leaf: &Cell,
    cuts: &[KeyRange],
    items: &[Given<'_>],
    fresh: &Fresh,
) -> Result<bool, Memory>
    requires some { rank leaf.now.lo < rank leaf.now.hi }
    requires given { AreForRange (rank leaf.now.lo) (rank leaf.now.hi) cuts.now items.now }
    ensures { IfOk result (λ ok. ok ≡ true → (t : Store Value)
        → IsWorking t (root_of_pair root.now) fresh.now set.now
        → IsRemakable t (root_of_pair root.now) fresh.now set.now leaf.now.lo cuts.now
        items.now) }
{
    let path = path_up(alloc, set, &leaf.lo())?;
    let Some((standing, ups)) = path.as_slice().split_first() else {
        return Ok(false);
    };
    if !is_leaf_of_range(standing, leaf) {
        return Ok(false);
    }
    let bytes = bytes_of(alloc, standing, cuts, items)?;
    let top = root_now(set, root);
    Ok(suffices(top, bytes, standing, ups, fresh))
}

// The standing leaf that has a key and the cells above it, the lowest first.
fn path_up(alloc: Global, set: &WorkingSet, key: &Key) -> Result<Vec<Arc<Cell>>, Memory>
    ensures { IfOk result (λ v. (t : Store Value) (r : TreeRoot) (f : FreshSeen)
        → IsWorking t r f set.now
        → map (λ c. arc_value c) v.items ≡ path_of set.now (rank key.now)) }
{
    let mut path = set.path(alloc, key)?;
    path.reverse();
    Ok(path)
}

// The number of the root, as it stands.
fn root_now(set: &WorkingSet, root: &Root) -> NodeId
    ensures { result.0 ≡ (root_of set.now (root_of_pair root.now)).id }
{
    match set.new_root() {
        Some(id) => id,
        None => root.id,
    }
}

// Whether a cell is a leaf of the range of another cell.
fn is_leaf_of_range(cell: &Cell, leaf: &Cell) -> bool
    ensures level { result ≡ true → cell.now.level ≡ 1 }
    ensures lo { result ≡ true → cell.now.lo ≡ leaf.now.lo }
    ensures hi { result ≡ true → cell.now.hi ≡ leaf.now.hi }
{
    cell.level() == 1 && cell.lo() == leaf.lo() && cell.hi() == leaf.hi()
}

// How many bytes a leaf needs after some edits, and what its units are.
fn bytes_of(
    alloc: Global,
    leaf: &Cell,
    cuts: &[KeyRange],
    items: &[Given<'_>],
) -> Result<u64, Memory>
    requires level { leaf.now.level ≡ 1 }
    requires some { rank leaf.now.lo < rank leaf.now.hi }
    requires given { AreForRange (rank leaf.now.lo) (rank leaf.now.hi) cuts.now items.now }
    ensures bytes { IfOk result (λ n. n
        ≡ min (leaf_bytes (after_edits cuts.now items.now leaf.now)) (2 ^ 64 - 1)) }
    ensures units { IfOk result (λ n.
        AreOfLeaf (rank leaf.now.lo) (rank leaf.now.hi) (node_of leaf.now).units) }
{
    bytes_after(alloc, &leaf.node(), leaf.lo(), cuts, items)
}

// Whether a leaf may have units of so many bytes, below these cells, the lowest first: one leaf
// holds them, or the cells suffice for those that come beside it; and there are numbers for all.
fn suffices(root: NodeId, bytes: u64, leaf: &Cell, ups: &[Arc<Cell>], fresh: &Fresh) -> bool
    ensures small { result ≡ true → bytes < 58912 }
    ensures edit { result ≡ true → (r : TreeRoot) (us : List LeafUnit) → root.0 ≡ r.id
        → bytes ≡ leaf_bytes us
        → CanEdit r fresh.now us leaf.now (map (λ c. arc_value c) ups.now) }
{
    let more = bytes
        .saturating_sub(u64::from(NODE_ROOM))
        .div_ceil(BYTES_FOR_LEAF);
    if bytes > MOST_BYTES || !has_numbers(fresh, ups.len(), more) {
        return false;
    }
    bytes <= u64::from(NODE_ROOM) || is_long_enough(root, more, leaf, ups)
}

// Whether there are numbers for a leaf, so many cells above it, and so many leaves more.
fn has_numbers(fresh: &Fresh, above: usize, more: u64) -> bool
    ensures { result ≡ true → fresh.now.next + (1 + above) + min 15 more < fresh.now.end }
{
    let left = fresh.end.saturating_sub(fresh.next);
    left.saturating_sub(1 + more.min(MOST_LEAVES)) > above as u64
}

// Whether the cells above a cell, the lowest first, suffice for so many that come beside it: one of
// them has room for the pointers, and those below it are parted in two, or all are, up to the root.
fn is_long_enough(root: NodeId, come: u64, cell: &Cell, ups: &[Arc<Cell>]) -> bool
    requires { come < 2 ^ 32 }
    ensures { result ≡ true → (r : TreeRoot) → root.0 ≡ r.id
        → IsLongEnough r come cell.now (map (λ c. arc_value c) ups.now) }
{
    match ups.split_first() {
        None => cell.id() == root && cell.level() < MOST_LEVEL,
        Some((up, rest)) => bears(up, come) || is_long_enough(root, 1, up, rest),
    }
}

// Whether a node has room for pointers to so many cells more.
fn bears(node: &Cell, more: u64) -> bool
    requires { more < 2 ^ 32 }
    ensures { result ≡ true → weight (items_of node.now.block) + 46 * more ≤ 4068 }
{
    node.level() > 0 && node_bytes(node) + POINTER_ROOM * more <= u64::from(NODE_ROOM)
}
