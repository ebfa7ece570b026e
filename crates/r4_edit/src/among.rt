//! Items that are put among extents (docs/volume.md, "Edits").

ghost use Rattle.std.specs.Prelude.{◌≡◌, ℕ, ◌++◌, ◌^◌, ◌≤◌, List, map, IfOk, reverse};
ghost use Rattle.std.specs.Arc.{arc_value};
ghost use Rattle.r4_base.specs.Tree.{Root as TreeRoot, Store};
ghost use Rattle.r4_base.specs.Value.{Value};
ghost use Rattle.r4_path.specs.r4_branch.Pieces.{item_pieces};
ghost use Rattle.r4_path.specs.r4_cell.Patch.{IsChange, patch_of};
ghost use Rattle.r4_path.specs.r4_cell.Seen.{CellSeen};
ghost use Rattle.r4_path.specs.r4_patch.Part.{MeetsPart};
ghost use Rattle.r4_edit.specs.Editing.{given_item};
ghost use Rattle.r4_edit.specs.Extents.{IsLeafPutUp, IsSpreadUp, PutsLeafUp, SpreadsUp, item_blocks};
ghost use Rattle.r4_path.specs.Grafts.{AreBlocksOf};
ghost use Rattle.r4_path.specs.Steps.{OnlyTakes};

use crate::leaf_parts::leaf_of;
use r4_base::{Key, Memory, get32};
use r4_path::{
    Cell, Change, Fresh, TwigPart, TwigPiece, end_behind, extent_pieces, graft_below,
    pieces_of_cell, pieces_with, put_among, take_number,
};
use std::alloc::Global;
use std::sync::Arc;

/// Puts an extent among those of the last cell of a path, a twig. The path goes from the top down.
pub(crate) fn put_extent(
    alloc: Global,
    path: &[Arc<Cell>],
    key: &Key,
    body: &[u8],
    fresh: &mut Fresh,
) -> Result<Change, Memory>
    requires path { (t : Store Value) × ((r : TreeRoot)
        × IsSpreadUp t r (given_item key.now 5 body.now) fresh.old (reverse (map (λ c. arc_value c) path.now))) }
    requires numbers { 2 ^ 63 ≤ fresh.old.next }
    ensures change { IfOk result (λ c. (blocks : List CellSeen) → AreBlocksOf (item_blocks (given_item key.now 5 body.now)) blocks
        → IsChange c.old (c.new ++ blocks) c.root) }
    ensures meets { IfOk result (λ c. (t : Store Value) (r : TreeRoot) (blocks : List CellSeen)
        → IsSpreadUp t r (given_item key.now 5 body.now) fresh.old (reverse (map (λ x. arc_value x) path.now))
        → AreBlocksOf (item_blocks (given_item key.now 5 body.now)) blocks
        → MeetsPart (patch_of c.old (c.new ++ blocks) c.root) t r) }
    ensures spreads { IfOk result (λ c. SpreadsUp (map (λ x. arc_value x) path.now) (given_item key.now 5 body.now) fresh.old fresh.new c
        (reverse (map (λ x. arc_value x) path.now))) }
    ensures numbers { OnlyTakes fresh.old fresh.new }
{
    let extent = extent_pieces(alloc, key, body)?;
    let twig = &path[path.len() - 1];
    let pieces = pieces_with(alloc, twig, key, extent.as_slice())?;
    graft_below(
        alloc,
        path,
        pieces.as_slice(),
        Vec::new(alloc),
        Vec::new(alloc),
        fresh,
    )
}

/// Puts an item of a leaf among the extents of the last cell of a path, a twig: into a new leaf, which has the range from the
/// item's key up to the next item's. The path goes from the top down.
pub(crate) fn put_leaf(
    alloc: Global,
    path: &[Arc<Cell>],
    key: &Key,
    plugin: u16,
    body: &[u8],
    fresh: &mut Fresh,
) -> Result<Change, Memory>
    requires path { (t : Store Value) × ((r : TreeRoot)
        × IsLeafPutUp t r (given_item key.now plugin body.now) fresh.old (reverse (map (λ c. arc_value c) path.now))) }
    requires numbers { 2 ^ 63 ≤ fresh.old.next }
    ensures change { IfOk result (λ c. IsChange c.old c.new c.root) }
    ensures meets { IfOk result (λ c. (t : Store Value) (r : TreeRoot)
        → IsLeafPutUp t r (given_item key.now plugin body.now) fresh.old (reverse (map (λ x. arc_value x) path.now))
        → MeetsPart (patch_of c.old c.new c.root) t r) }
    ensures apart { IfOk result (λ c. PutsLeafUp (map (λ x. arc_value x) path.now) (given_item key.now plugin body.now) fresh.old fresh.new c
        (reverse (map (λ x. arc_value x) path.now))) }
    ensures numbers { OnlyTakes fresh.old fresh.new }
{
    let twig = &path[path.len() - 1];
    let id = take_number(fresh);
    let pointer = [TwigPiece {
        key: *key,
        part: TwigPart::Pointer(id),
    }];
    let old = pieces_of_cell(alloc, twig)?;
    let hi = end_behind(old.as_slice(), key, twig.hi());
    let pieces = put_among(alloc, old.as_slice(), key, &pointer)?;
    let mkfs_id = get32(twig.block().bytes(), 12);
    let mut new = Vec::with_capacity(alloc, 1)?;
    new.push(leaf_of(alloc, id, hi, mkfs_id, key, plugin, body)?)?;
    graft_below(alloc, path, pieces.as_slice(), Vec::new(alloc), new, fresh)
}
