//! Blocks that are cut out of a twig's extents (docs/volume.md, "Edits").

ghost use Rattle.std.specs.Prelude.{◌≡◌, ◌+◌, ◌-◌, ◌++◌, ◌^◌, ◌≤◌, ◌<◌, [], ◌∷◌, None, Some, drop, length, map, take, IfOk, reverse};
ghost use Rattle.std.specs.Arc.{arc_value};
ghost use Rattle.std.specs.Option.{option_copied, option_map, option_to_list};
ghost use Rattle.r4_base.specs.Key.{rank};
ghost use Rattle.r4_base.specs.Node.{mkfs_id_of};
ghost use Rattle.r4_base.specs.Tree.{Root as TreeRoot, Store};
ghost use Rattle.r4_base.specs.Value.{Value};
ghost use Rattle.r4_path.specs.r4_branch.Pieces.{is_at, last_end, open_end};
ghost use Rattle.r4_path.specs.r4_cell.Patch.{IsChange, patch_of};
ghost use Rattle.r4_path.specs.r4_cell.Seen.{CellSeen};
ghost use Rattle.r4_path.specs.r4_graft.Splices.{IsBorder, spliced};
ghost use Rattle.r4_path.specs.r4_patch.Part.{MeetsPart};
ghost use Rattle.r4_edit.specs.CutBlocks.{CutsUp, IsCutUp, IsTakenUp, after_leaves, cut_pieces};
ghost use Rattle.r4_edit.specs.CutBlocks.{end_key, new_pointer, next_key, numbers_for, parted_twice, pieces_behind, pieces_without, pointer_for, pointer_over};
ghost use Rattle.r4_edit.specs.Extents.{given_cells};
ghost use Rattle.r4_path.specs.TwigPieces.{ArePiecesOf, twig_pieces};
ghost use Rattle.r4_path.specs.Steps.{OnlyTakes};

use crate::leaf_parts::{empty_leaf, widened};
use r4_base::{BLOCK_BYTES, Key, Memory, NodeId, get32};
use r4_path::{
    Cell, Change, Fresh, TwigPart, TwigPiece, add, graft_below, part_at, pieces_of_cell, place_of,
    splice, take_number,
};
use std::alloc::Global;
use std::sync::Arc;

/// Whether the piece's unit ends at a key, so that the unit from there on continues it.
fn ends_at(piece: &TwigPiece, key: &Key) -> bool
    ensures { result ≡ is_at (open_end piece.now) (rank key.now) }
{
    let TwigPart::Blocks(unit) = piece.part else {
        return false;
    };
    let room = u64::MAX - piece.key.el[3];
    if unit.width > room / BLOCK_BYTES {
        return false;
    }
    let end = Key {
        el: [
            piece.key.el[0],
            piece.key.el[1],
            piece.key.el[2],
            piece.key.el[3] + BLOCK_BYTES * unit.width,
        ],
    };
    end.is_same(*key)
}

/// The key of the piece at a place, or else the end of the range.
fn key_at(pieces: &[TwigPiece], at: usize, hi: Key) -> Key
    ensures { result ≡ next_key hi (drop at pieces.now) }
{
    match pieces.get(at) {
        Some(piece) => piece.key,
        None => hi,
    }
}

/// A pointer to a new leaf in the place of the pieces from one on up to another, unless an extent before them ends there.
fn pointer_at(pieces: &[TwigPiece], at: usize, end: usize, id: NodeId) -> Option<TwigPiece>
    requires { end ≤ length pieces.now }
    ensures { option_to_list result ≡ pointer_over (last_end None (take at pieces.now)) id.0 (take (end - at) (drop at pieces.now)) }
{
    if end <= at {
        return None;
    }
    let key = pieces[at].key;
    if at > 0 && ends_at(&pieces[at - 1], &key) {
        return None;
    }
    Some(TwigPiece {
        key,
        part: TwigPart::Pointer(id),
    })
}

/// A twig's pieces, parted at both keys, of which the first lies at a border of blocks
/// (docs/volume.md, "Twigs").
pub fn pieces_parted(
    alloc: Global,
    twig: &Cell,
    from: &Key,
    to: &Key,
) -> Result<Vec<TwigPiece>, Memory>
    requires level { twig.now.level ≡ 2 }
    requires border { IsBorder (rank from.now) (twig_pieces twig.now) }
    ensures are { IfOk result (λ v. ArePiecesOf twig.now (twig_pieces twig.now)) }
    ensures parted { IfOk result (λ v. v.items ≡ parted_twice (rank from.now) (rank to.now) (twig_pieces twig.now)) }
{
    let pieces = pieces_of_cell(alloc, twig)?;
    let once = part_at(alloc, pieces.as_slice(), from)?;
    let twice = part_at(alloc, once.as_slice(), to)?;
    Ok(twice)
}

/// The pieces with a pointer, if there is one, in the place of those from one on up to another.
fn with_pointer(
    alloc: Global,
    pieces: &[TwigPiece],
    at: usize,
    end: usize,
    pointer: &Option<TwigPiece>,
) -> Result<Vec<TwigPiece>, Memory>
    requires at { at ≤ length pieces.now }
    requires end { end ≤ length pieces.now }
    ensures { IfOk result (λ v. v.items ≡ spliced at end (option_to_list pointer.now) pieces.now) }
{
    let mut middle = Vec::new(alloc);
    if let Some(piece) = pointer {
        middle.push(*piece)?;
    }
    let all = splice(alloc, pieces, at, end, middle.as_slice())?;
    Ok(all)
}

/// The cell alone.
fn alone(alloc: Global, cell: Arc<Cell>) -> Result<Vec<Arc<Cell>>, Memory>
    ensures { IfOk result (λ v. v.items ≡ cell ∷ []) }
{
    let mut cells = Vec::with_capacity(alloc, 1)?;
    cells.push(cell)?;
    Ok(cells)
}

/// The cells that go: those of the blocks, and the leaf, if there is one.
fn going(
    alloc: Global,
    leaf: Option<&Arc<Cell>>,
    blocks: &[Arc<Cell>],
) -> Result<Vec<Arc<Cell>>, Memory>
    ensures { IfOk result (λ v. map (λ c. arc_value c) v.items
        ≡ map (λ c. arc_value c) blocks.now ++ given_cells (option_map (λ c. arc_value c) (option_copied leaf.entry))) }
{
    let mut cells = Vec::new(alloc);
    add(&mut cells, blocks)?;
    if let Some(leaf) = leaf {
        cells.push(Arc::try_clone(leaf)?)?;
    }
    Ok(cells)
}

/// The cells that take up the range of what goes, up to a key: the leaf left of it, or a new one that the pointer points to.
fn taken_up(
    alloc: Global,
    twig: &Cell,
    leaf: Option<&Arc<Cell>>,
    pointer: &Option<TwigPiece>,
    hi: Key,
    fresh: &mut Fresh,
) -> Result<Vec<Arc<Cell>>, Memory>
    requires leaf { (c : CellSeen) → option_map (λ c. arc_value c) (option_copied leaf) ≡ Some c
        → (c.level ≡ 1) × (rank c.hi ≤ rank hi) }
    requires number { fresh.old.next < fresh.old.end }
    ensures cells { IfOk result (λ v. IsTakenUp (option_map (λ c. arc_value c) (option_copied leaf.entry))
        (option_to_list pointer.now) fresh.old.next hi (mkfs_id_of twig.now.block) (map (λ c. arc_value c) v.items)) }
    ensures fresh { IfOk result (λ v. fresh.new ≡ record fresh.old {
      next = fresh.old.next + numbers_for (option_map (λ c. arc_value c) (option_copied leaf.entry)) (option_to_list pointer.now);
    }) }
    ensures numbers { OnlyTakes fresh.old fresh.new }
{
    if let Some(leaf) = leaf {
        let wide = widened(alloc, leaf, hi)?;
        return alone(alloc, wide);
    }
    let Some(pointer) = pointer else {
        return Ok(Vec::new(alloc));
    };
    let id = take_number(fresh);
    let mkfs_id = get32(twig.block().bytes(), 12);
    let new = empty_leaf(alloc, id, pointer.key, hi, mkfs_id)?;
    alone(alloc, new)
}

/// The pieces that a twig has when blocks are cut out, and the cells that take up their range.
#[derive(Drop)]
struct Cut {
    pieces: Vec<TwigPiece>,
    new: Vec<Arc<Cell>>,
}

/// The pointer to a new leaf, where one takes up the range of the pieces from one on up to another.
fn pointer_beside(
    pieces: &[TwigPiece],
    at: usize,
    end: usize,
    leaf: Option<&Arc<Cell>>,
    id: NodeId,
) -> Option<TwigPiece>
    requires { end ≤ length pieces.now }
    ensures { option_to_list result ≡ pointer_for (option_map (λ c. arc_value c) (option_copied leaf.entry))
        (last_end None (take at pieces.now)) id.0 (take (end - at) (drop at pieces.now)) }
{
    match leaf {
        Some(_) => None,
        None => pointer_at(pieces, at, end, id),
    }
}

/// What becomes of a twig of these pieces, parted at both keys, where what is between them goes.
fn cut_parted(
    alloc: Global,
    twig: &Cell,
    pieces: &[TwigPiece],
    leaf: Option<&Arc<Cell>>,
    from: &Key,
    to: &Key,
    fresh: &mut Fresh,
) -> Result<Cut, Memory>
    requires leaf { (c : CellSeen) → option_map (λ c. arc_value c) (option_copied leaf) ≡ Some c
        → (c.level ≡ 1) × (rank c.hi ≤ rank (next_key twig.now.hi (pieces_behind (rank to.now) pieces.now))) }
    requires number { fresh.old.next < fresh.old.end }
    ensures pieces { IfOk result (λ x. x.pieces.items ≡ pieces_without (rank from.now) (rank to.now) fresh.old.next
        (option_map (λ c. arc_value c) (option_copied leaf.entry)) pieces.now) }
    ensures cells { IfOk result (λ x. IsTakenUp (option_map (λ c. arc_value c) (option_copied leaf.entry))
        (new_pointer (rank from.now) (rank to.now) fresh.old.next (option_map (λ c. arc_value c) (option_copied leaf.entry))
        pieces.now) fresh.old.next (next_key twig.now.hi (pieces_behind (rank to.now) pieces.now)) (mkfs_id_of twig.now.block)
        (map (λ c. arc_value c) x.new.items)) }
    ensures fresh { IfOk result (λ x. fresh.new ≡ record fresh.old {
      next = fresh.old.next + numbers_for (option_map (λ c. arc_value c) (option_copied leaf.entry))
          (new_pointer (rank from.now) (rank to.now) fresh.old.next
          (option_map (λ c. arc_value c) (option_copied leaf.entry)) pieces.now);
    }) }
    ensures numbers { OnlyTakes fresh.old fresh.new }
{
    let at = place_of(pieces, from);
    let end = place_of(pieces, to);
    let pointer = pointer_beside(pieces, at, end, leaf, NodeId(fresh.next));
    let hi = key_at(pieces, end, twig.hi());
    let new = taken_up(alloc, twig, leaf, &pointer, hi, fresh)?;
    let pieces = with_pointer(alloc, pieces, at, end, &pointer)?;
    Ok(Cut { pieces, new })
}

/// What becomes of a twig where what is between two keys goes.
fn cut_twig(
    alloc: Global,
    twig: &Cell,
    leaf: Option<&Arc<Cell>>,
    from: &Key,
    to: &Key,
    fresh: &mut Fresh,
) -> Result<Cut, Memory>
    requires level { twig.now.level ≡ 2 }
    requires border { IsBorder (rank from.now) (twig_pieces twig.now) }
    requires leaf { (c : CellSeen) → option_map (λ c. arc_value c) (option_copied leaf) ≡ Some c
        → (c.level ≡ 1) × (ArePiecesOf twig.now (twig_pieces twig.now)
        → rank c.hi ≤ rank (end_key (rank from.now) (rank to.now) twig.now)) }
    requires number { fresh.old.next < fresh.old.end }
    ensures are { IfOk result (λ x. ArePiecesOf twig.now (twig_pieces twig.now)) }
    ensures pieces { IfOk result (λ x. x.pieces.items ≡ cut_pieces (rank from.now) (rank to.now) fresh.old.next
        (option_map (λ c. arc_value c) (option_copied leaf.entry)) twig.now) }
    ensures cells { IfOk result (λ x. IsTakenUp (option_map (λ c. arc_value c) (option_copied leaf.entry))
        (new_pointer (rank from.now) (rank to.now) fresh.old.next (option_map (λ c. arc_value c) (option_copied leaf.entry))
        (parted_twice (rank from.now) (rank to.now) (twig_pieces twig.now)))
        fresh.old.next (end_key (rank from.now) (rank to.now) twig.now) (mkfs_id_of twig.now.block)
        (map (λ c. arc_value c) x.new.items)) }
    ensures fresh { IfOk result (λ x. fresh.new ≡ after_leaves (rank from.now) (rank to.now)
        (option_map (λ c. arc_value c) (option_copied leaf.entry)) twig.now fresh.old) }
    ensures numbers { OnlyTakes fresh.old fresh.new }
{
    let pieces = pieces_parted(alloc, twig, from, to)?;
    cut_parted(alloc, twig, pieces.as_slice(), leaf, from, to, fresh)
}

/// Cuts blocks out of the extents of the last cell of a path, a twig: the units whose keys are from one key on and below
/// another, both at borders of blocks. The path goes from the top down, and the cells of the blocks that go are given. Their
/// range is taken up by what stands left of it: by the extent that they continue; by the leaf that is given, which ends where
/// they begin; or else by a new leaf without units, which takes a fresh number. On `Memory` numbers may have been taken
/// (docs/volume.md, "Edits").
pub(crate) fn cut_blocks(
    alloc: Global,
    path: &[Arc<Cell>],
    leaf: Option<&Arc<Cell>>,
    blocks: &[Arc<Cell>],
    from: &Key,
    to: &Key,
    fresh: &mut Fresh,
) -> Result<Change, Memory>
    requires path { (t : Store Value) × ((r : TreeRoot)
        × IsCutUp t r (option_map (λ c. arc_value c) (option_copied leaf)) (map (λ c. arc_value c) blocks.now)
        (rank from.now) (rank to.now) fresh.old (reverse (map (λ c. arc_value c) path.now))) }
    requires numbers { 2 ^ 63 ≤ fresh.old.next }
    ensures change { IfOk result (λ c. IsChange c.old c.new c.root) }
    ensures meets { IfOk result (λ c. (t : Store Value) (r : TreeRoot)
        → IsCutUp t r (option_map (λ x. arc_value x) (option_copied leaf.entry)) (map (λ x. arc_value x) blocks.now)
        (rank from.now) (rank to.now) fresh.old (reverse (map (λ x. arc_value x) path.now))
        → MeetsPart (patch_of c.old c.new c.root) t r) }
    ensures cuts { IfOk result (λ c. CutsUp (map (λ x. arc_value x) path.now)
        (option_map (λ x. arc_value x) (option_copied leaf.entry)) (map (λ x. arc_value x) blocks.now)
        (rank from.now) (rank to.now) fresh.old fresh.new c (reverse (map (λ x. arc_value x) path.now))) }
    ensures numbers { OnlyTakes fresh.old fresh.new }
{
    let twig = &path[path.len() - 1];
    let old = going(alloc, leaf, blocks)?;
    let Cut { pieces, new } = cut_twig(alloc, twig, leaf, from, to, fresh)?;
    graft_below(alloc, path, pieces.as_slice(), old, new, fresh)
}
