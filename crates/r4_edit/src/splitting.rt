//! A node parted in two (docs/volume.md, "Edits").

ghost use Rattle.std.specs.Prelude.{◌≡◌, [], ◌+◌, ◌^◌, ◌<◌, ◌≤◌, length, map, ℕ, IfOk};
ghost use Rattle.std.specs.Arc.{arc_value};
ghost use Rattle.r4_base.specs.Key.{rank};
ghost use Rattle.r4_base.specs.Node.{items_of, mkfs_id_of};
ghost use Rattle.r4_base.specs.Tree.{IsNode, Root as TreeRoot, Store};
ghost use Rattle.r4_base.specs.Value.{Value};
ghost use Rattle.r4_path.specs.r4_branch.Pieces.{AreTwigPieces, twig_bytes};
ghost use Rattle.r4_path.specs.r4_branch.Twigs.{IsTwig};
ghost use Rattle.r4_path.specs.r4_cell.Seen.{node_of};
ghost use Rattle.r4_path.specs.r4_cell.Patch.{IsChange};
ghost use Rattle.r4_path.specs.r4_patch.Joining.{patch_of_change};
ghost use Rattle.r4_path.specs.r4_patch.Part.{MeetsPart};
ghost use Rattle.r4_path.specs.TwigPieces.{twig_pieces};
ghost use Rattle.r4_path.specs.Levels.{step_of};
ghost use Rattle.r4_edit.specs.Splitting.{IsParted, IsSplitIn, Splits, unit_count};
ghost use Rattle.r4_path.specs.Steps.{OnlyTakes};

use crate::leaf_parts::part_leaf;
use crate::over::cells_of;
use r4_base::{Block, Key, LEAF, Memory, TWIG, get32};
use r4_path::{
    Cell, Cells, Change, Fresh, Level, Row, TwigPiece, middle_key, new_cell, pack_twigs, pair,
    pieces_of_cell, rise, take_number, two,
};
use std::alloc::Global;
use std::sync::Arc;

/// Parts the last node of a path in two, between two of its units, of which there are two at least: between two items where
/// there are two, and else within the one item, before its middle unit. The path goes from the top down. It has the cell
/// above where there is one, and as many more as are full: each of these is parted too, and over a root that is parted,
/// below level 8, stands a new one. It takes a fresh number for each cell that comes, and there is one for each cell of the
/// path and one more. On `Memory` the numbers may have been taken (docs/volume.md, "Edits").
pub fn split(alloc: Global, path: &[Arc<Cell>], fresh: &mut Fresh) -> Result<Change, Memory>
    requires path { (t : Store Value) × ((r : TreeRoot) × IsSplitIn t r (map (λ c. arc_value c) path.now) fresh.old) }
    requires numbers { (2 ^ 63 ≤ fresh.old.next) × (fresh.old.next + length path.now < fresh.old.end) }
    ensures change { IfOk result (λ c. IsChange c.old c.new c.root) }
    ensures meets { IfOk result (λ c. (t : Store Value) (r : TreeRoot)
        → IsSplitIn t r (map (λ x. arc_value x) path.now) fresh.old → MeetsPart (patch_of_change c) t r) }
    ensures splits { IfOk result (λ c. Splits (map (λ x. arc_value x) path.now) fresh.old fresh.new c) }
    ensures numbers { OnlyTakes fresh.old fresh.new }
{
    let count = path.len() - 1;
    prove!(fresh.next < fresh.end);
    let first = part(alloc, &path[count], fresh)?;
    rise(alloc, &path[..count], first, fresh)
}

/// The two cells in the place of one, which has two units or more.
fn part(alloc: Global, cell: &Arc<Cell>, fresh: &mut Fresh) -> Result<Level, Memory>
    requires node { IsNode (node_of (arc_value cell.now)) }
    requires low { 1 ≤ (arc_value cell.now).level }
    requires two { 2 ≤ unit_count (arc_value cell.now) }
    requires number { fresh.old.next < fresh.old.end }
    ensures parted { IfOk result (λ l. IsParted (arc_value cell.now) fresh.old fresh.new (step_of l)) }
    ensures numbers { OnlyTakes fresh.old fresh.new }
{
    if cell.node().len() >= 2 {
        return part_items(alloc, cell, fresh);
    }
    if cell.level() == LEAF {
        return part_item(alloc, cell, fresh);
    }
    part_extent(alloc, cell, fresh)
}

/// The two cells in the place of one, between two of its items.
fn part_items(alloc: Global, cell: &Arc<Cell>, fresh: &mut Fresh) -> Result<Level, Memory>
    requires node { IsNode (node_of (arc_value cell.now)) }
    requires low { 1 ≤ (arc_value cell.now).level }
    requires two { 2 ≤ length (items_of (arc_value cell.now).block) }
    requires number { fresh.old.next < fresh.old.end }
    ensures parted { IfOk result (λ l. IsParted (arc_value cell.now) fresh.old fresh.new (step_of l)) }
    ensures numbers { OnlyTakes fresh.old fresh.new }
{
    let row = Row {
        node: cell.node(),
        mkfs_id: get32(cell.block().bytes(), 12),
        at: 0,
        more: no_cells(),
    };
    let new = two(alloc, &row, cell, fresh)?;
    Ok(Level {
        old: Arc::try_clone(cell)?,
        new,
    })
}

/// The two leaves in the place of one with one item, which is parted before its middle unit.
fn part_item(alloc: Global, leaf: &Arc<Cell>, fresh: &mut Fresh) -> Result<Level, Memory>
    requires node { IsNode (node_of (arc_value leaf.now)) }
    requires level { (arc_value leaf.now).level ≡ 1 }
    requires one { length (items_of (arc_value leaf.now).block) ≡ 1 }
    requires two { 2 ≤ length (node_of (arc_value leaf.now)).units }
    requires number { fresh.old.next < fresh.old.end }
    ensures parted { IfOk result (λ l. IsParted (arc_value leaf.now) fresh.old fresh.new (step_of l)) }
    ensures numbers { OnlyTakes fresh.old fresh.new }
{
    let key = middle_key(&leaf.node());
    let parts = part_leaf(alloc, leaf, &key, fresh)?;
    let new = cells_of(alloc, parts)?;
    Ok(Level {
        old: Arc::try_clone(leaf)?,
        new: Cells::from_vec(new),
    })
}

/// The two twigs in the place of one, whose pieces are shared out, half of them each.
fn part_extent(alloc: Global, twig: &Arc<Cell>, fresh: &mut Fresh) -> Result<Level, Memory>
    requires level { (arc_value twig.now).level ≡ 2 }
    requires two { 2 ≤ length (twig_pieces (arc_value twig.now)) }
    requires number { fresh.old.next < fresh.old.end }
    ensures parted { IfOk result (λ l. IsParted (arc_value twig.now) fresh.old fresh.new (step_of l)) }
    ensures numbers { OnlyTakes fresh.old fresh.new }
{
    let mkfs_id = get32(twig.block().bytes(), 12);
    let pieces = pieces_of_cell(alloc, twig)?;
    let (left, right) = pieces.as_slice().split_at(pieces.len() / 2);
    let key = right[0].key;
    let left = one_twig(alloc, twig.lo(), mkfs_id, left)?;
    let right = one_twig(alloc, key, mkfs_id, right)?;
    let left = new_cell(alloc, twig.id(), TWIG, twig.lo(), key, left)?;
    let right = new_cell(alloc, take_number(fresh), TWIG, key, twig.hi(), right)?;
    let new = pair(alloc, left, right)?;
    Ok(Level {
        old: Arc::try_clone(twig)?,
        new,
    })
}

/// The block of the one twig that these pieces need, for a range that begins at `lo`.
fn one_twig(alloc: Global, lo: Key, mkfs_id: u32, pieces: &[TwigPiece]) -> Result<Block, Memory>
    requires pieces { (hi : ℕ) × AreTwigPieces (rank lo) hi pieces.now }
    requires fits { twig_bytes pieces.now ≤ 4068 }
    ensures twig { IfOk result (λ b. (hi : ℕ) → AreTwigPieces (rank lo) hi pieces.now
        → IsTwig (rank lo) hi pieces.now (record { lo = lo; block = b })) }
    ensures mkfs_id { IfOk result (λ b. mkfs_id_of b ≡ mkfs_id) }
{
    let mut twigs = pack_twigs(alloc, lo, mkfs_id, pieces)?;
    Ok(twigs.remove(0).block)
}

/// No further cells.
fn no_cells<'a>() -> &'a [Arc<Cell>]
    ensures { result.now ≡ [] }
{
    &[]
}
