//! Extents that are put in the place of holes and of nothing (docs/volume.md, "Edits").

ghost use Rattle.std.specs.Prelude.{◌≡◌, ℕ, ◌++◌, ◌^◌, ◌≤◌, List, map, IfOk, reverse};
ghost use Rattle.std.specs.Arc.{arc_value};
ghost use Rattle.r4_base.specs.Tree.{Root as TreeRoot, Store};
ghost use Rattle.r4_base.specs.Value.{Value};
ghost use Rattle.r4_work.specs.r4_cell.Patch.{IsChange};
ghost use Rattle.r4_work.specs.r4_cell.Seen.{CellSeen};
ghost use Rattle.r4_work.specs.r4_edit.Editing.{given_item};
ghost use Rattle.r4_work.specs.r4_edit.Extents.{item_blocks};
ghost use Rattle.r4_extent_edit.specs.Effects.{EditsUnits, extent_values, item_keys, patch_with};
ghost use Rattle.r4_extent_edit.specs.Setting.{IsSetUp, SetsUp};
ghost use Rattle.r4_work.specs.r4_patch.Part.{MeetsPart};
ghost use Rattle.r4_work.specs.r4_path.Grafts.{AreBlocksOf};
ghost use Rattle.r4_work.specs.r4_path.Steps.{OnlyTakes};

use crate::middle::{key_behind, pieces_put_over};
use r4_base::{Key, Memory};
use r4_work::{Cell, Change, Fresh, extent_pieces, graft_below};
use std::alloc::Global;
use std::sync::Arc;

/// Puts units of an extent in the place of what a twig has from a key up to their end: holes, or
/// nothing. The path goes from the top down to the twig, and the body has 1 to 4030 bytes of units
/// and ends below offset 2^64. Both ends lie at borders of blocks, and a hole's unit that goes on
/// before or behind is parted there. The blocks that the extent names are new ones, whose cells the
/// caller makes: with these behind its new cells the change is a patch. Its units may be holes
/// alone, and may continue an extent that ends there, so that a file grows by blocks, or by a hole.
///
/// Where the pieces of the twig then need more than 4068 bytes, more twigs come, and the path has
/// the cells above and there are fresh numbers, as for `insert` of r4_edit. On `Memory` numbers may
/// have been taken (docs/volume.md, "Edits").
pub fn set_extent(
    alloc: Global,
    path: &[Arc<Cell>],
    key: &Key,
    body: &[u8],
    fresh: &mut Fresh,
) -> Result<Change, Memory>
    requires path { let it = given_item key.now 5 body.now in
        (t : Store Value) × ((r : TreeRoot)
        × IsSetUp t r it fresh.old (reverse (map (λ c. arc_value c) path.now))) }
    requires numbers { 2 ^ 63 ≤ fresh.old.next }
    ensures change { let it = given_item key.now 5 body.now in
        IfOk result (λ c. (blocks : List CellSeen) → AreBlocksOf (item_blocks it) blocks
        → IsChange c.old (c.new ++ blocks) c.root) }
    ensures meets { let it = given_item key.now 5 body.now in
        let cells = map (λ x. arc_value x) path.now in
        IfOk result (λ c. (t : Store Value) (r : TreeRoot) (blocks : List CellSeen)
        → IsSetUp t r it fresh.old (reverse cells) → AreBlocksOf (item_blocks it) blocks
        → MeetsPart (patch_with c blocks) t r) }
    ensures sets { let it = given_item key.now 5 body.now in
        let cells = map (λ x. arc_value x) path.now in
        IfOk result (λ c. SetsUp cells it fresh.old fresh.new c (reverse cells)) }
    ensures effect { let it = given_item key.now 5 body.now in
        IfOk result (λ c. (blocks : List CellSeen) → AreBlocksOf (item_blocks it) blocks
        → EditsUnits c blocks fresh.old fresh.new (item_keys it) (extent_values it blocks)) }
    ensures numbers { OnlyTakes fresh.old fresh.new }
{
    let extent = extent_pieces(alloc, key, body)?;
    let end = key_behind(extent.as_slice());
    let twig = &path[path.len() - 1];
    let pieces = pieces_put_over(alloc, twig, key, &end, extent.as_slice())?;
    graft_below(
        alloc,
        path,
        pieces.as_slice(),
        Vec::new(alloc),
        Vec::new(alloc),
        fresh,
    )
}
