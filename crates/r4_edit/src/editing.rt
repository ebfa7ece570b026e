//! Items that are put into a tree, and units that are cut out of it (docs/volume.md, "Edits").

ghost use Rattle.std.specs.Prelude.{◌≡◌, ◌+◌, ◌++◌, ◌^◌, ◌<◌, ◌≤◌, List, length, map, reverse, IfOk};
ghost use Rattle.std.specs.Arc.{arc_value};
ghost use Rattle.std.specs.Option.{option_copied, option_map};
ghost use Rattle.r4_base.specs.Cell.{item_end, item_units};
ghost use Rattle.r4_base.specs.Key.{rank};
ghost use Rattle.r4_base.specs.Node.{mkfs_id_of};
ghost use Rattle.r4_base.specs.Tree.{Root as TreeRoot, Store};
ghost use Rattle.r4_base.specs.Value.{Value};
ghost use Rattle.r4_path.specs.r4_cell.Patch.{IsChange, patch_of};
ghost use Rattle.r4_path.specs.r4_cell.Seen.{CellSeen, node_of};
ghost use Rattle.r4_path.specs.r4_leaf.Leaves.{AreApart, HaveMkfsId, IsGiven};
ghost use Rattle.r4_path.specs.r4_leaf.Units.{LeafUnit};
ghost use Rattle.r4_path.specs.r4_patch.Joining.{patch_of_change};
ghost use Rattle.r4_path.specs.r4_patch.Part.{MeetsPart};
ghost use Rattle.r4_edit.specs.CutBlocks.{CutsUp, IsOutOfExtentsIn, IsOutOfLeafIn, IsTakenOutIn, is_in_range, leaf_first, rest_behind};
ghost use Rattle.r4_edit.specs.CutBlocks.{trunk};
ghost use Rattle.r4_edit.specs.Editing.{AreLeavesOf, Cuts, EditsUp, Inserts, IsCutOfLeafIn, IsInsertIn, IsReplacedUp, after_cut};
ghost use Rattle.r4_edit.specs.Editing.{after_insert, extra_for, given_item};
ghost use Rattle.r4_edit.specs.Extents.{IsIntoLeafIn, IsLeafPutUp, IsOverUp, IsPutIn, IsSpreadUp, PutsLeafUp, PutsOverUp, SpreadsUp, item_blocks};
ghost use Rattle.r4_path.specs.Grafts.{AreBlocksOf};
ghost use Rattle.r4_path.specs.Steps.{OnlyTakes};

use crate::among::{put_extent, put_leaf};
use crate::cutting::cut_blocks;
use crate::over::put_over;
use r4_base::{EXTENT, Key, LEAF, Memory, TWIG, get32};
use r4_path::{Cell, Change, Fresh, Leaf, cut_out, leaf_level, put_in, rise};
use std::alloc::Global;
use std::sync::Arc;

/// Puts an item where it belongs: stat data (plugin 0), entries of a directory (2), bytes of a tail (6) or units of an extent
/// (5), with a body of 1 to 4030 bytes. The path goes from the top down to the cell that has the item's keys: a leaf, or a
/// twig where they are in the range of an extent. No unit there has one of the keys.
///
/// - An item of a leaf goes into the leaf. Among extents it goes into a new leaf, from the item's key up to the next one.
/// - An extent goes into the twig. Where a leaf has its keys, the leaf keeps its units below them, unless it begins there; from
///   its next unit on there is another leaf. The blocks that the extent names are holes or new ones, whose cells the caller
///   makes: with these behind its new cells the change is a patch.
///
/// Where the units of a leaf or the pieces of a twig then need more than 4068 bytes, more nodes come, at most one for each
/// 1024 bytes that are too many or a part of these; the path has the cells above that their pointers may ask for, as for
/// `split`. It takes a fresh number for each node that comes. On `Memory` numbers may have been taken (docs/volume.md,
/// "Edits").
pub fn insert(
    alloc: Global,
    path: &[Arc<Cell>],
    key: &Key,
    plugin: u16,
    body: &[u8],
    fresh: &mut Fresh,
) -> Result<Change, Memory>
    requires path { (t : Store Value) × ((r : TreeRoot)
        × IsPutIn t r (map (λ c. arc_value c) path.now) (given_item key.now plugin body.now) fresh.old) }
    requires numbers { 2 ^ 63 ≤ fresh.old.next }
    ensures change { IfOk result (λ c. (blocks : List CellSeen)
        → AreBlocksOf (item_blocks (given_item key.now plugin body.now)) blocks → IsChange c.old (c.new ++ blocks) c.root) }
    ensures meets { IfOk result (λ c. (t : Store Value) (r : TreeRoot) (blocks : List CellSeen)
        → IsPutIn t r (map (λ x. arc_value x) path.now) (given_item key.now plugin body.now) fresh.old
        → AreBlocksOf (item_blocks (given_item key.now plugin body.now)) blocks
        → MeetsPart (patch_of c.old (c.new ++ blocks) c.root) t r) }
    ensures into { IfOk result (λ c. (t : Store Value) (r : TreeRoot)
        → IsIntoLeafIn t r (map (λ x. arc_value x) path.now) (given_item key.now plugin body.now) fresh.old
        → Inserts (map (λ x. arc_value x) path.now) (given_item key.now plugin body.now) fresh.old fresh.new c) }
    ensures spreads { IfOk result (λ c. (t : Store Value) (r : TreeRoot)
        → IsSpreadUp t r (given_item key.now plugin body.now) fresh.old (reverse (map (λ x. arc_value x) path.now))
        → SpreadsUp (map (λ x. arc_value x) path.now) (given_item key.now plugin body.now) fresh.old fresh.new c
        (reverse (map (λ x. arc_value x) path.now))) }
    ensures over { IfOk result (λ c. (t : Store Value) (r : TreeRoot)
        → IsOverUp t r (given_item key.now plugin body.now) fresh.old (reverse (map (λ x. arc_value x) path.now))
        → PutsOverUp (map (λ x. arc_value x) path.now) (given_item key.now plugin body.now) fresh.old fresh.new c
        (reverse (map (λ x. arc_value x) path.now))) }
    ensures apart { IfOk result (λ c. (t : Store Value) (r : TreeRoot)
        → IsLeafPutUp t r (given_item key.now plugin body.now) fresh.old (reverse (map (λ x. arc_value x) path.now))
        → PutsLeafUp (map (λ x. arc_value x) path.now) (given_item key.now plugin body.now) fresh.old fresh.new c
        (reverse (map (λ x. arc_value x) path.now))) }
    ensures numbers { OnlyTakes fresh.old fresh.new }
{
    let of_leaf = path[path.len() - 1].level() == LEAF;
    if plugin == EXTENT {
        if of_leaf {
            return put_over(alloc, path, key, body, fresh);
        }
        return put_extent(alloc, path, key, body, fresh);
    }
    if of_leaf {
        return put_into(alloc, path, key, plugin, body, fresh);
    }
    put_leaf(alloc, path, key, plugin, body, fresh)
}

/// Puts an item into the leaf of a path: stat data, entries of a directory or bytes of a tail, of 1 to 4030 bytes, which
/// belongs to the leaf. The path goes from the top down. Where the leaf's units then need more than 4068 bytes, more leaves
/// come, at most one for each 1024 bytes that are too many or a part of these; the path has the cells above that their
/// pointers may ask for, as for `split`. It takes a fresh number for each cell that comes, and there is one for each leaf
/// that may come (never more than 15), one for each cell of the path and one more. On `Memory` numbers may have been taken
/// (docs/volume.md, "Edits").
pub(crate) fn put_into(
    alloc: Global,
    path: &[Arc<Cell>],
    key: &Key,
    plugin: u16,
    body: &[u8],
    fresh: &mut Fresh,
) -> Result<Change, Memory>
    requires item { IsGiven (given_item key.now plugin body.now) }
    requires path { (t : Store Value) × ((r : TreeRoot)
        × IsInsertIn t r (map (λ c. arc_value c) path.now) (given_item key.now plugin body.now) fresh.old) }
    requires numbers { (2 ^ 63 ≤ fresh.old.next)
        × (fresh.old.next + length path.now + extra_for (after_insert (given_item key.now plugin body.now))
        (map (λ c. arc_value c) path.now) < fresh.old.end) }
    ensures change { IfOk result (λ c. IsChange c.old c.new c.root) }
    ensures meets { IfOk result (λ c. (t : Store Value) (r : TreeRoot)
        → IsInsertIn t r (map (λ x. arc_value x) path.now) (given_item key.now plugin body.now) fresh.old
        → MeetsPart (patch_of_change c) t r) }
    ensures inserts { IfOk result (λ c. Inserts (map (λ x. arc_value x) path.now)
        (given_item key.now plugin body.now) fresh.old fresh.new c) }
    ensures numbers { OnlyTakes fresh.old fresh.new }
{
    let count = path.len() - 1;
    let leaves = leaves_with(alloc, &path[count], key, plugin, body)?;
    replace(alloc, path, leaves, fresh)
}

/// Cuts the units whose keys are from `from` on and below `to` out of what has them: out of the leaf at the end of the path,
/// or out of the extents of a twig, where both keys lie at borders of blocks. The path goes from the top down.
///
/// - The leaf stays, also where it has no units left. Where a part of a tail needs a header for which there is no room,
///   another leaf comes.
/// - Behind a twig stand the cells of the blocks that go, and before these a leaf that ends where they begin, if there is one:
///   it takes up their range. Where an extent goes on behind its first blocks, its range stays; and where neither a leaf nor
///   that extent stands left of them in the twig, a new leaf takes it up, without units.
///
/// The path has the cells above that further pointers may ask for, and there are fresh numbers, as for `insert`. On `Memory`
/// numbers may have been taken (docs/volume.md, "Edits").
pub fn cut(
    alloc: Global,
    path: &[Arc<Cell>],
    from: &Key,
    to: &Key,
    fresh: &mut Fresh,
) -> Result<Change, Memory>
    requires path { (t : Store Value) × ((r : TreeRoot)
        × IsTakenOutIn t r (map (λ c. arc_value c) path.now) from.now to.now fresh.old) }
    requires numbers { 2 ^ 63 ≤ fresh.old.next }
    ensures change { IfOk result (λ c. IsChange c.old c.new c.root) }
    ensures meets { IfOk result (λ c. (t : Store Value) (r : TreeRoot)
        → IsTakenOutIn t r (map (λ x. arc_value x) path.now) from.now to.now fresh.old → MeetsPart (patch_of_change c) t r) }
    ensures leaf { IfOk result (λ c. (t : Store Value) (r : TreeRoot)
        → IsOutOfLeafIn t r (map (λ x. arc_value x) path.now) from.now to.now fresh.old
        → Cuts (map (λ x. arc_value x) path.now) from.now to.now fresh.old fresh.new c) }
    ensures extents { IfOk result (λ c. (t : Store Value) (r : TreeRoot)
        → (is : IsOutOfExtentsIn t r (map (λ x. arc_value x) path.now) from.now to.now fresh.old)
        → CutsUp is.above is.leaf is.blocks (rank from.now) (rank to.now) fresh.old fresh.new c (reverse is.above)) }
    ensures numbers { OnlyTakes fresh.old fresh.new }
{
    let (above, below) = path.split_at(trunk_of(path));
    let leaf = first_leaf(below);
    if goes_on_behind(leaf, from) {
        return cut_leaf(alloc, path, from, to, fresh);
    }
    cut_blocks(alloc, above, leaf, behind_leaf(below), from, to, fresh)
}

/// How many of a path's cells, from the top down, stand above leaf level.
fn trunk_of(path: &[Arc<Cell>]) -> usize
    ensures { result ≡ trunk (map (λ c. arc_value c) path.now) }
{
    let mut count = 0;
    while count < path.len() && path[count].level() >= TWIG {
        count += 1;
    }
    count
}

/// The leaf with which the cells below a path's twigs begin, if they do.
fn first_leaf<'a>(below: &'a [Arc<Cell>]) -> Option<&'a Arc<Cell>>
    ensures { option_map (λ c. arc_value c) (option_copied result) ≡ leaf_first (map (λ c. arc_value c) below.now) }
{
    let cell = below.first()?;
    if cell.level() == LEAF {
        Some(cell)
    } else {
        None
    }
}

/// The cells below a path's twigs but the leaf with which they begin, if they do.
fn behind_leaf<'a>(below: &'a [Arc<Cell>]) -> &'a [Arc<Cell>]
    ensures { map (λ c. arc_value c) result.now ≡ rest_behind (map (λ c. arc_value c) below.now) }
{
    match below.split_first() {
        Some((cell, rest)) if cell.level() == LEAF => rest,
        _ => below,
    }
}

/// Whether there is a leaf, and its range goes on behind the key.
fn goes_on_behind(leaf: Option<&Arc<Cell>>, key: &Key) -> bool
    ensures { result ≡ is_in_range (option_map (λ c. arc_value c) (option_copied leaf.entry)) (rank key.now) }
{
    match leaf {
        Some(cell) => key.is_below(cell.hi()),
        None => false,
    }
}

/// Cuts the units whose keys are from `from` on and below `to` out of the leaf of a path, which has that range. The path goes
/// from the top down. The leaf stays, also where it has no units left. Where a part of a tail needs a header for which there
/// is no room, another leaf comes; the path has the cells above that its pointer may ask for, as for `split`. The fresh
/// numbers are as for `insert`. On `Memory` numbers may have been taken (docs/volume.md, "Edits").
pub(crate) fn cut_leaf(
    alloc: Global,
    path: &[Arc<Cell>],
    from: &Key,
    to: &Key,
    fresh: &mut Fresh,
) -> Result<Change, Memory>
    requires path { (t : Store Value) × ((r : TreeRoot)
        × IsCutOfLeafIn t r (map (λ c. arc_value c) path.now) from.now to.now fresh.old) }
    requires numbers { (2 ^ 63 ≤ fresh.old.next)
        × (fresh.old.next + length path.now + extra_for (after_cut from.now to.now) (map (λ c. arc_value c) path.now)
        < fresh.old.end) }
    ensures change { IfOk result (λ c. IsChange c.old c.new c.root) }
    ensures meets { IfOk result (λ c. (t : Store Value) (r : TreeRoot)
        → IsCutOfLeafIn t r (map (λ x. arc_value x) path.now) from.now to.now fresh.old → MeetsPart (patch_of_change c) t r) }
    ensures cuts { IfOk result (λ c. Cuts (map (λ x. arc_value x) path.now) from.now to.now fresh.old fresh.new c) }
    ensures numbers { OnlyTakes fresh.old fresh.new }
{
    let count = path.len() - 1;
    let leaves = leaves_without(alloc, &path[count], from, to)?;
    replace(alloc, path, leaves, fresh)
}

/// The leaves that a leaf becomes where an item is put in, with its mkfs_id.
fn leaves_with(
    alloc: Global,
    leaf: &Cell,
    key: &Key,
    plugin: u16,
    body: &[u8],
) -> Result<Vec<Leaf>, Memory>
    requires level { leaf.now.level ≡ 1 }
    requires given { IsGiven (given_item key.now plugin body.now) }
    requires from { rank leaf.now.lo ≤ rank key.now }
    requires to { item_end (given_item key.now plugin body.now) ≤ rank leaf.now.hi }
    requires apart { AreApart (node_of leaf.now).units (item_units (given_item key.now plugin body.now)) }
    ensures leaves { IfOk result (λ v.
        AreLeavesOf leaf.now (after_insert (given_item key.now plugin body.now) leaf.now) v.items) }
    ensures mkfs_id { IfOk result (λ v. HaveMkfsId (mkfs_id_of leaf.now.block) v.items) }
{
    let mkfs_id = get32(leaf.block().bytes(), 12);
    put_in(alloc, &leaf.node(), leaf.lo(), mkfs_id, key, plugin, body)
}

/// The leaves that a leaf becomes without its units from one key up to another, with its mkfs_id.
pub fn leaves_without(alloc: Global, leaf: &Cell, from: &Key, to: &Key) -> Result<Vec<Leaf>, Memory>
    requires level { leaf.now.level ≡ 1 }
    ensures leaves { IfOk result (λ v. AreLeavesOf leaf.now (after_cut from.now to.now leaf.now) v.items) }
    ensures mkfs_id { IfOk result (λ v. HaveMkfsId (mkfs_id_of leaf.now.block) v.items) }
{
    let mkfs_id = get32(leaf.block().bytes(), 12);
    cut_out(alloc, &leaf.node(), leaf.lo(), mkfs_id, from, to)
}

/// The change that puts these leaves in the place of the last cell of a path.
pub(crate) fn replace(
    alloc: Global,
    path: &[Arc<Cell>],
    leaves: Vec<Leaf>,
    fresh: &mut Fresh,
) -> Result<Change, Memory>
    requires path { (t : Store Value) × ((r : TreeRoot) × ((us : List LeafUnit)
        × IsReplacedUp t r us leaves.items fresh.old (reverse (map (λ c. arc_value c) path.now)))) }
    requires numbers { 2 ^ 63 ≤ fresh.old.next }
    ensures change { IfOk result (λ c. IsChange c.old c.new c.root) }
    ensures meets { IfOk result (λ c. (t : Store Value) (r : TreeRoot) (us : List LeafUnit)
        → IsReplacedUp t r us leaves.items fresh.old (reverse (map (λ x. arc_value x) path.now))
        → MeetsPart (patch_of_change c) t r) }
    ensures edits { IfOk result (λ c. (t : Store Value) (r : TreeRoot) (us : List LeafUnit)
        → IsReplacedUp t r us leaves.items fresh.old (reverse (map (λ x. arc_value x) path.now))
        → EditsUp (λ leaf. us) fresh.old fresh.new c (reverse (map (λ x. arc_value x) path.now))) }
    ensures numbers { OnlyTakes fresh.old fresh.new }
{
    let count = path.len() - 1;
    prove!(fresh.next < fresh.end);
    let lowest = leaf_level(alloc, &path[count], leaves, fresh)?;
    rise(alloc, &path[..count], lowest, fresh)
}
