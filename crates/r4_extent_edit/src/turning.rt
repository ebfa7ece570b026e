//! Ranges of leaves that become an extent (docs/volume.md, "Edits").

ghost use Rattle.std.specs.Prelude.{◌≡◌, ℕ, ◌+◌, ◌++◌, ◌^◌, ◌<◌, ◌≤◌, ◌∷◌, List, Contains, length};
ghost use Rattle.std.specs.Prelude.{map, IfOk, reverse};
ghost use Rattle.std.specs.Arc.{arc_value};
ghost use Rattle.std.specs.Option.{option_map};
ghost use Rattle.r4_base.specs.Key.{rank};
ghost use Rattle.r4_base.specs.Tree.{Root as TreeRoot, Store};
ghost use Rattle.r4_base.specs.Value.{Value};
ghost use Rattle.r4_work.specs.r4_cell.Patch.{IsChange};
ghost use Rattle.r4_work.specs.r4_cell.Seen.{CellSeen, node_of};
ghost use Rattle.r4_work.specs.r4_edit.Editing.{given_item};
ghost use Rattle.r4_work.specs.r4_edit.Extents.{given_cells, item_blocks};
ghost use Rattle.r4_work.specs.r4_edit.LeafParts.{HasRight};
ghost use Rattle.r4_extent_edit.specs.Effects.{EditsUnits, extent_values, item_keys, patch_with};
ghost use Rattle.r4_extent_edit.specs.Turning.{AreEnds, IsTurnUp, KeepsEnds, TurnsUp};
ghost use Rattle.r4_work.specs.r4_patch.Part.{MeetsPart};
ghost use Rattle.r4_work.specs.r4_path.Grafts.{AreBlocksOf};
ghost use Rattle.r4_work.specs.r4_path.Steps.{OnlyTakes};

use crate::middle::{key_behind, pieces_put_over};
use r4_base::{Key, Memory};
use r4_work::{
    Cell, Change, Fresh, LeafParts, add, add_pointer, cells_of, extent_pieces, graft_below,
    left_part, right_part,
};
use std::alloc::Global;
use std::sync::Arc;

/// Makes an extent of a range of leaves below one twig, as of a body's tails. The path goes from
/// the top down to the twig. The leaves are given in their order, each of which begins where the
/// one before it ends: all that have a key of the extent's range. What they have there goes with
/// them. The first leaf keeps its units below the range and its name, unless it begins there; those
/// of the last one behind the range come into a new leaf, from the first of them on. The body has 1
/// to 4030 bytes of units and ends below offset 2^64; the blocks that it names are new ones, whose
/// cells the caller makes: with these behind its new cells the change is a patch.
///
/// The path has the cells above that further pointers may ask for, and there are fresh numbers, as
/// for `insert` of r4_edit. On `Memory` numbers may have been taken (docs/volume.md, "Edits").
pub fn turn(
    alloc: Global,
    path: &[Arc<Cell>],
    leaves: &[Arc<Cell>],
    key: &Key,
    body: &[u8],
    fresh: &mut Fresh,
) -> Result<Change, Memory>
    requires path { let it = given_item key.now 5 body.now in
        (t : Store Value) × ((r : TreeRoot)
        × IsTurnUp t r it (map (λ c. arc_value c) leaves.now) fresh.old
        (reverse (map (λ c. arc_value c) path.now))) }
    requires numbers { 2 ^ 63 ≤ fresh.old.next }
    ensures change { let it = given_item key.now 5 body.now in
        IfOk result (λ c. (blocks : List CellSeen) → AreBlocksOf (item_blocks it) blocks
        → IsChange c.old (c.new ++ blocks) c.root) }
    ensures meets { let it = given_item key.now 5 body.now in
        let cells = map (λ x. arc_value x) path.now in
        IfOk result (λ c. (t : Store Value) (r : TreeRoot) (blocks : List CellSeen)
        → IsTurnUp t r it (map (λ x. arc_value x) leaves.now) fresh.old (reverse cells)
        → AreBlocksOf (item_blocks it) blocks → MeetsPart (patch_with c blocks) t r) }
    ensures turns { let it = given_item key.now 5 body.now in
        let cells = map (λ x. arc_value x) path.now in
        IfOk result (λ c. TurnsUp cells it (map (λ x. arc_value x) leaves.now) fresh.old fresh.new c
        (reverse cells)) }
    ensures effect { let it = given_item key.now 5 body.now in
        IfOk result (λ c. (blocks : List CellSeen) → AreBlocksOf (item_blocks it) blocks
        → EditsUnits c blocks fresh.old fresh.new (item_keys it) (extent_values it blocks)) }
    ensures numbers { OnlyTakes fresh.old fresh.new }
{
    let mut others = extent_pieces(alloc, key, body)?;
    let end = key_behind(others.as_slice());
    let parts = ends_kept(alloc, leaves, key, &end, fresh)?;
    add_pointer(&mut others, &parts.right)?;
    let twig = &path[path.len() - 1];
    let pieces = pieces_put_over(alloc, twig, key, &end, others.as_slice())?;
    let old = all_of(alloc, leaves)?;
    let new = cells_of(alloc, parts)?;
    graft_below(alloc, path, pieces.as_slice(), old, new, fresh)
}

// What stays of leaves where a range goes: the part of the first one before a key, and that of the
// last one from another on.
fn ends_kept(
    alloc: Global,
    leaves: &[Arc<Cell>],
    from: &Key,
    to: &Key,
    fresh: &mut Fresh,
) -> Result<LeafParts, Memory>
    requires ends { AreEnds (map (λ c. arc_value c) leaves.now) (rank from.now) (rank to.now) }
    requires number { fresh.old.next < fresh.old.end }
    ensures keeps { IfOk result (λ p. (leaf : CellSeen) (more : List CellSeen)
        → map (λ c. arc_value c) leaves.now ≡ leaf ∷ more
        → KeepsEnds leaf more from.now to.now fresh.old fresh.new
        (option_map (λ c. arc_value c) p.left) (option_map (λ c. arc_value c) p.right)) }
    ensures numbers { OnlyTakes fresh.old fresh.new }
{
    let left = left_part(alloc, &leaves[0], from)?;
    let right = rest_of(alloc, &leaves[leaves.len() - 1], to, fresh)?;
    Ok(LeafParts { left, right })
}

// The part of a leaf from a key behind its first one on, where a unit has that key or one behind
// it.
fn rest_of(
    alloc: Global,
    leaf: &Cell,
    key: &Key,
    fresh: &mut Fresh,
) -> Result<Option<Arc<Cell>>, Memory>
    requires level { leaf.now.level ≡ 1 }
    requires from { rank leaf.now.lo < rank key.now }
    requires to { rank key.now ≤ rank leaf.now.hi }
    requires units { (k : ℕ) (v : Value) → Contains (node_of leaf.now).units (k, v)
        → k < rank leaf.now.hi }
    requires number { fresh.old.next < fresh.old.end }
    ensures right { IfOk result (λ o. HasRight leaf.now key.now fresh.old.next
        (option_map (λ c. arc_value c) o)) }
    ensures fresh { IfOk result (λ o. fresh.new ≡ record fresh.old {
      next = fresh.old.next + length (given_cells (option_map (λ c. arc_value c) o));
    }) }
    ensures numbers { OnlyTakes fresh.old fresh.new }
{
    if key.is_same(leaf.hi()) {
        return Ok(None);
    }
    right_part(alloc, leaf, key, fresh)
}

// All of the leaves, since those between the first and the last go too.
fn all_of(alloc: Global, leaves: &[Arc<Cell>]) -> Result<Vec<Arc<Cell>>, Memory>
    ensures { IfOk result (λ v. map (λ c. arc_value c) v.items
        ≡ map (λ c. arc_value c) leaves.now) }
{
    let mut cells = Vec::with_capacity(alloc, leaves.len())?;
    add(&mut cells, leaves)?;
    Ok(cells)
}
