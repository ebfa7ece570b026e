//! Extents that are put into a leaf's range (docs/volume.md, "Edits").

ghost use Rattle.std.specs.Prelude.{◌≡◌, ℕ, ◌+◌, ◌++◌, ◌^◌, ◌≤◌, ◌<◌, [], ◌∷◌, ◌==◌, if◌then◌else◌, Contains, List, length, map, IfOk, OnOk, reverse};
ghost use Rattle.std.specs.Arc.{arc_value};
ghost use Rattle.std.specs.Option.{option_map};
ghost use Rattle.r4_base.specs.Key.{rank};
ghost use Rattle.r4_base.specs.Tree.{Root as TreeRoot, Store};
ghost use Rattle.r4_base.specs.Value.{Value};
ghost use Rattle.r4_path.specs.r4_branch.Items.{IsSoundItem};
ghost use Rattle.r4_path.specs.r4_branch.Pieces.{item_pieces};
ghost use Rattle.r4_path.specs.r4_cell.Patch.{IsChange, patch_of};
ghost use Rattle.r4_path.specs.r4_cell.Seen.{CellSeen, node_of};
ghost use Rattle.r4_path.specs.r4_graft.Splices.{place, spliced};
ghost use Rattle.r4_path.specs.r4_patch.Part.{MeetsPart};
ghost use Rattle.r4_edit.specs.Editing.{given_item};
ghost use Rattle.r4_edit.specs.Extents.{IsOverUp, PutsOverUp, given_cells, item_blocks, over_pieces, pointer_to};
ghost use Rattle.r4_path.specs.TwigPieces.{ArePiecesOf, twig_pieces};
ghost use Rattle.r4_path.specs.Grafts.{AreBlocksOf};
ghost use Rattle.r4_path.specs.Steps.{OnlyTakes, name_of};

use crate::leaf_parts::{LeafParts, part_leaf};
use r4_base::{Key, Memory};
use r4_path::{
    Cell, Change, Fresh, TwigPart, TwigPiece, extent_pieces, graft_below, pieces_of_cell, place_of,
    splice,
};
use std::alloc::Global;
use std::sync::Arc;

/// Puts an extent into the range of the last cell of a path, a leaf. The path goes from the top down.
pub(crate) fn put_over(
    alloc: Global,
    path: &[Arc<Cell>],
    key: &Key,
    body: &[u8],
    fresh: &mut Fresh,
) -> Result<Change, Memory>
    requires path { (t : Store Value) × ((r : TreeRoot)
        × IsOverUp t r (given_item key.now 5 body.now) fresh.old (reverse (map (λ c. arc_value c) path.now))) }
    requires numbers { 2 ^ 63 ≤ fresh.old.next }
    ensures change { IfOk result (λ c. (blocks : List CellSeen) → AreBlocksOf (item_blocks (given_item key.now 5 body.now)) blocks
        → IsChange c.old (c.new ++ blocks) c.root) }
    ensures meets { IfOk result (λ c. (t : Store Value) (r : TreeRoot) (blocks : List CellSeen)
        → IsOverUp t r (given_item key.now 5 body.now) fresh.old (reverse (map (λ x. arc_value x) path.now))
        → AreBlocksOf (item_blocks (given_item key.now 5 body.now)) blocks
        → MeetsPart (patch_of c.old (c.new ++ blocks) c.root) t r) }
    ensures over { IfOk result (λ c. PutsOverUp (map (λ x. arc_value x) path.now) (given_item key.now 5 body.now) fresh.old fresh.new c
        (reverse (map (λ x. arc_value x) path.now))) }
    ensures numbers { OnlyTakes fresh.old fresh.new }
{
    let count = path.len() - 1;
    let leaf = &path[count];
    let parts = part_leaf(alloc, leaf, key, fresh)?;
    let pieces = pieces_over(alloc, &path[count - 1], leaf, key, body, &parts)?;
    let old = one(alloc, leaf)?;
    let new = cells_of(alloc, parts)?;
    graft_below(alloc, &path[..count], pieces.as_slice(), old, new, fresh)
}

/// The pieces of a twig with an extent in the range of one of its leaves, which has these parts.
fn pieces_over(
    alloc: Global,
    twig: &Cell,
    leaf: &Cell,
    key: &Key,
    body: &[u8],
    parts: &LeafParts,
) -> Result<Vec<TwigPiece>, Memory>
    requires level { twig.now.level ≡ 2 }
    requires named { Contains (node_of twig.now).names (name_of leaf.now) }
    requires leaf { leaf.now.level ≡ 1 }
    requires item { IsSoundItem (given_item key.now 5 body.now) }
    ensures are { IfOk result (λ v. ArePiecesOf twig.now (twig_pieces twig.now)) }
    ensures over { IfOk result (λ v. v.items ≡ over_pieces (given_item key.now 5 body.now) leaf.now
        (option_map (λ c. arc_value c) parts.now.right) (twig_pieces twig.now)) }
{
    let mut middle = extent_pieces(alloc, key, body)?;
    add_pointer(&mut middle, &parts.right)?;
    let pieces = pieces_of_cell(alloc, twig)?;
    let at = place_of(pieces.as_slice(), &leaf.lo());
    let from = if key.is_same(leaf.lo()) { at } else { at + 1 };
    let all = splice(alloc, pieces.as_slice(), from, at + 1, middle.as_slice())?;
    Ok(all)
}

/// Puts a pointer to the cell behind the pieces, if there is one.
pub fn add_pointer(pieces: &mut Vec<TwigPiece>, to: &Option<Arc<Cell>>) -> Result<(), Memory>
    ensures { OnOk result (pieces.new.items ≡ pieces.old.items ++ pointer_to (option_map (λ c. arc_value c) to.now)) }
{
    let Some(cell) = to else {
        return Ok(());
    };
    pieces.push(TwigPiece {
        key: cell.lo(),
        part: TwigPart::Pointer(cell.id()),
    })?;
    Ok(())
}

/// The cell alone.
fn one(alloc: Global, cell: &Arc<Cell>) -> Result<Vec<Arc<Cell>>, Memory>
    ensures { IfOk result (λ v. map (λ c. arc_value c) v.items ≡ arc_value cell.now ∷ []) }
{
    let mut cells = Vec::with_capacity(alloc, 1)?;
    cells.push(Arc::try_clone(cell)?)?;
    Ok(cells)
}

/// The parts of a leaf that there are.
pub fn cells_of(alloc: Global, parts: LeafParts) -> Result<Vec<Arc<Cell>>, Memory>
    ensures { IfOk result (λ v. map (λ c. arc_value c) v.items
        ≡ given_cells (option_map (λ c. arc_value c) parts.left) ++ given_cells (option_map (λ c. arc_value c) parts.right)) }
{
    let mut cells = Vec::with_capacity(alloc, 2)?;
    add_cell(&mut cells, parts.left)?;
    add_cell(&mut cells, parts.right)?;
    Ok(cells)
}

/// Puts the cell behind the others, if there is one.
fn add_cell(cells: &mut Vec<Arc<Cell>>, cell: Option<Arc<Cell>>) -> Result<(), Memory>
    ensures { OnOk result (map (λ c. arc_value c) cells.new.items
        ≡ map (λ c. arc_value c) cells.old.items ++ given_cells (option_map (λ c. arc_value c) cell)) }
{
    if let Some(cell) = cell {
        cells.push(cell)?;
    }
    Ok(())
}
