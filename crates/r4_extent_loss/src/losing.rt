//! Twigs of a body that loses blocks are packed anew one after the other (docs/volume.md, "Bodies in extents").

ghost use Rattle.std.specs.Prelude.{ℕ, ◌≡◌, ◌+◌, ◌^◌, ◌<◌, ◌≤◌, ◌++◌, ◌∷◌, [], List, Contains, OnOk, IfOk};
ghost use Rattle.std.specs.Prelude.{true, false, Some, length, map};
ghost use Rattle.std.specs.Arc.{arc_value};
ghost use Rattle.std.specs.Option.{option_map};
ghost use Rattle.r4_base.specs.Cell.{cell_fault};
ghost use Rattle.r4_base.specs.Key.{rank};
ghost use Rattle.r4_base.specs.Tree.{Root as TreeRoot, Store};
ghost use Rattle.r4_base.specs.Value.{Value};
ghost use Rattle.r4_base.specs.declared.key.Key.{Key as KeySeen};
ghost use Rattle.r4_extent_build.specs.r4_cell.Seen.{CellSeen, node_of};
ghost use Rattle.r4_extent_build.specs.r4_cell.declared.change.Fresh.{Fresh as FreshSeen};
ghost use Rattle.r4_content.specs.Bodies.{larger, smaller};
ghost use Rattle.r4_content.specs.Held.{edits_of};
ghost use Rattle.r4_extent_build.specs.r4_edit.CutBlocks.{next_key};
ghost use Rattle.r4_extent_build.specs.r4_edit.Extents.{given_cells};
ghost use Rattle.r4_extent_build.specs.r4_node40.Laid.{fresh_node};
ghost use Rattle.r4_extent_build.specs.r4_path.Sharing.{IsSound};
ghost use Rattle.r4_extent_build.specs.r4_reach.Needs.{pieces_after};
ghost use Rattle.r4_extent_build.specs.r4_twig_turns.Turning.{IsTurned, behind, own_of};
ghost use Rattle.r4_extent_build.specs.r4_twig_work.Regrafting.{DoesBelow, IsRegraftable};
ghost use Rattle.r4_extent_build.specs.r4_extent_demands.Sizes.{IsSizedBody};
ghost use Rattle.r4_extent_build.specs.Looping.{AreTurned, behind_all};
ghost use Rattle.r4_extent_loss.specs.Losing.{IsLosing, IsLossOf, gone_from, gone_to, leaf_at};
ghost use Rattle.r4_extent_loss.specs.Losing.{losing_turn, numbers_taken, pointed, taken_block};
ghost use Rattle.r4_extent_loss.specs.Losing.{taken_from, taken_id, taken_pieces, with_leaf};
ghost use Rattle.r4_extent_loss.specs.LosingEach.{CanLoseAll, leaf_in, loss_of, losing_turns};

use r4_base::{Block, Key, LEAF, Memory, NodeId, get32};
use r4_content::Edits;
use r4_extent_build::{
    Below, Cell, Fresh, KeyRange, NodeMut, SizedBody, TwigPart, TwigPiece, WorkingSet, add,
    new_cell, pieces_after, regraft,
};
use std::alloc::Global;
use std::sync::Arc;

/// How many numbers each twig has of its own, for the twigs and nodes that may come beside it and above.
const OWN_NUMBERS: u64 = 64;

/// A twig of which blocks of a body go, the leaf that ends where the first of them begins, if one does, and the data
/// blocks that go. The cells are shared.
#[derive(Drop)]
pub struct Losing {
    pub twig: Arc<Cell>,
    pub leaf: Option<Arc<Cell>>,
    pub blocks: Vec<Arc<Cell>>,
}

// Where the leaf begins that takes up the range of what goes.
fn taken_from(body: &SizedBody, losing: &Losing) -> Key
    requires sized { IsSizedBody body.now }
    requires in_extents { body.now.in_extents ≡ true }
    ensures { rank result ≡ taken_from body.now (loss_of losing.now) }
{
    match &losing.leaf {
        Some(leaf) => leaf.lo(),
        None => gone_of(body, &losing.twig).from,
    }
}

/// The keys of a twig's range of which the blocks of a body in extents go: from where the body ends afterwards, or where
/// the range begins, up to where the body ended, or where the range does; none where the first is not below the second
/// (docs/volume.md, "Bodies in extents").
pub fn gone_of(body: &SizedBody, twig: &Cell) -> KeyRange
    requires sized { IsSizedBody body.now }
    requires in_extents { body.now.in_extents ≡ true }
    ensures from { rank result.from ≡ gone_from body.now twig.now }
    ensures to { rank result.to ≡ gone_to body.now twig.now }
{
    let going = body.going();
    let from = later(twig.lo(), going.from);
    let to = earlier(twig.hi(), going.to);
    KeyRange { from, to }
}

// The greater one of two keys.
fn later(one: Key, other: Key) -> Key
    ensures { rank result ≡ larger (rank one) (rank other) }
{
    if one.is_below(other) { other } else { one }
}

// The smaller one of two keys.
fn earlier(one: Key, other: Key) -> Key
    ensures { rank result ≡ smaller (rank one) (rank other) }
{
    if one.is_below(other) { one } else { other }
}

// The range of the leaf to which the piece at a key points: up to the next piece, or to the end of all.
#[tactic(auto, unfolding(crate::specs::Losing::leaf_at))]
fn leaf_range(pieces: &[TwigPiece], key: &Key, hi: Key) -> Option<KeyRange>
    ensures { (id : ℕ) (block : List ℕ)
        → leaf_at (rank key.now) id hi block pieces.now ≡ leaf_in id block result }
{
    match pieces.split_first() {
        None => None,
        Some((first, rest)) => {
            if first.key.is_same(*key) {
                Some(KeyRange {
                    from: first.key,
                    to: first_key(rest, hi),
                })
            } else {
                leaf_range(rest, key, hi)
            }
        }
    }
}

// The key of the first piece, or else the end of the range.
fn first_key(pieces: &[TwigPiece], hi: Key) -> Key
    ensures { result ≡ next_key hi pieces.now }
{
    match pieces.first() {
        None => hi,
        Some(first) => first.key,
    }
}

// Makes the block a leaf without items.
fn format_leaf(block: &mut Block, mkfs_id: u32)
    ensures { block.new ≡ fresh_node 1 mkfs_id }
{
    let _ = NodeMut::format(block, LEAF, mkfs_id);
}

// The block of a leaf without items.
fn empty_block(alloc: Global, mkfs_id: u32) -> Result<Block, Memory>
    ensures { IfOk result (λ b. b ≡ fresh_node 1 mkfs_id) }
{
    let mut block = Block::zeroed(alloc)?;
    format_leaf(&mut block, mkfs_id);
    Ok(block)
}

// What stands in the leaf that takes up the range of what goes.
fn taken_block(alloc: Global, losing: &Losing) -> Result<Block, Memory>
    ensures { IfOk result (λ b. b ≡ taken_block (loss_of losing.now)) }
{
    match &losing.leaf {
        Some(leaf) => leaf.block().copy(alloc),
        None => empty_block(alloc, get32(losing.twig.block().bytes(), 12)),
    }
}

// The leaf that takes up the range of what goes, if one does: it begins at a key.
fn leaf_at(
    alloc: Global,
    losing: &Losing,
    key: &Key,
    id: NodeId,
    pieces: &[TwigPiece],
) -> Result<Vec<Arc<Cell>>, Memory>
    requires { (d : CellSeen) → Contains (leaf_at (rank key.now) id.0 (arc_value losing.now.twig).hi
        (taken_block (loss_of losing.now)) pieces.now) d → IsSound d }
    ensures { IfOk result (λ v. map (λ c. arc_value c) v.items
        ≡ leaf_at (rank key.now) id.0 (arc_value losing.now.twig).hi
        (taken_block (loss_of losing.now)) pieces.now) }
{
    let Some(range) = leaf_range(pieces, key, losing.twig.hi()) else {
        return Ok(Vec::new(alloc));
    };
    let block = taken_block(alloc, losing)?;
    let cell = new_cell(alloc, id, LEAF, range.from, range.to, block)?;
    let mut cells = Vec::with_capacity(alloc, 1)?;
    cells.push(cell)?;
    Ok(cells)
}

// Whose number the leaf has that takes up the range of what goes: its own, where it goes on, or the next one.
fn taken_id(losing: &Losing, next: NodeId) -> NodeId
    ensures { result.0 ≡ taken_id (loss_of losing.now) next.0 }
{
    match &losing.leaf {
        Some(leaf) => leaf.id(),
        None => next,
    }
}

// A piece, which points to this leaf where it begins at a key.
fn pointed(piece: &TwigPiece, key: &Key, id: NodeId) -> TwigPiece
    ensures { result ≡ pointed (rank key.now) id.0 piece.now }
{
    if piece.key.is_same(*key) {
        TwigPiece {
            key: piece.key,
            part: TwigPart::Pointer(id),
        }
    } else {
        *piece
    }
}

// The pieces, of which the one that begins at a key points to this leaf.
fn with_leaf(
    alloc: Global,
    pieces: &[TwigPiece],
    key: &Key,
    id: NodeId,
) -> Result<Vec<TwigPiece>, Memory>
    ensures { IfOk result (λ v. v.items ≡ with_leaf (rank key.now) id.0 pieces.now) }
{
    pieces
        .iter()
        .map(|piece| pointed(piece, key, id))
        .collect(alloc)
}

// The pieces with the pointer to the leaf that takes up the range of what goes. One to a leaf that goes on stands there.
fn taken_pieces(
    alloc: Global,
    losing: &Losing,
    pieces: Vec<TwigPiece>,
    key: &Key,
    next: NodeId,
) -> Result<Vec<TwigPiece>, Memory>
    ensures { IfOk result (λ v. v.items
        ≡ taken_pieces (loss_of losing.now) (rank key.now) next.0 pieces.items) }
{
    if let Some(_) = &losing.leaf {
        return Ok(pieces);
    }
    with_leaf(alloc, pieces.as_slice(), key, next)
}

// How many numbers that takes: a new leaf one, a leaf that goes on none.
fn numbers_taken(losing: &Losing, come: &[Arc<Cell>]) -> u64
    ensures { result ≡ numbers_taken (loss_of losing.now) (map (λ c. arc_value c) come.now) }
{
    match &losing.leaf {
        Some(_) => 0,
        None => come.len() as u64,
    }
}

// The cells that go: the blocks, and the leaf, if there is one.
fn gone_cells(alloc: Global, losing: &Losing) -> Result<Vec<Arc<Cell>>, Memory>
    ensures { IfOk result (λ v. map (λ c. arc_value c) v.items
        ≡ (loss_of losing.now).blocks ++ given_cells (loss_of losing.now).leaf) }
{
    let mut cells = Vec::new(alloc);
    add(&mut cells, losing.blocks.as_slice())?;
    if let Some(leaf) = &losing.leaf {
        cells.push(Arc::try_clone(leaf)?)?;
    }
    Ok(cells)
}

/// Packs the standing twigs of a body anew of which blocks go, one after the other: each gets the pieces that it has
/// after the edits. The range of what goes is taken up by what stands left of it: by an extent that ends there; by the
/// leaf that is given, which goes on and keeps its number; or by a new leaf without units, of the next number. 64 more
/// numbers are the twig's own, whether it needs them or not. The only error is want of memory; then some may have been
/// packed, and numbers may have been taken (docs/volume.md, "Bodies in extents").
pub fn regraft_without(
    alloc: Global,
    set: &mut WorkingSet,
    body: &SizedBody,
    edits: &Edits,
    losing: &[Losing],
    fresh: &mut Fresh,
) -> Result<(), Memory>
    requires sized { IsSizedBody body.now }
    requires can { (t : Store Value) × ((r : TreeRoot) × CanLoseAll body.now (edits_of edits.now)
        t r (map (λ x. loss_of x) losing.now) fresh.old set.old) }
    ensures turned { OnOk result ((t : Store Value) (r : TreeRoot)
        → CanLoseAll body.now (edits_of edits.now) t r (map (λ x. loss_of x) losing.now)
        fresh.old set.old
        → AreTurned t r
        (losing_turns body.now (edits_of edits.now) (map (λ x. loss_of x) losing.now))
        fresh.old set.old set.new) }
    ensures left { OnOk result (fresh.new ≡ behind_all
        (losing_turns body.now (edits_of edits.now) (map (λ x. loss_of x) losing.now)) fresh.old) }
{
    match losing.split_first() {
        None => Ok(()),
        Some((first, rest)) => {
            regraft_one(alloc, set, body, edits, first, fresh)?;
            regraft_without(alloc, set, body, edits, rest, fresh)?;
            Ok(())
        }
    }
}

// Packs one of them anew.
fn regraft_one(
    alloc: Global,
    set: &mut WorkingSet,
    body: &SizedBody,
    edits: &Edits,
    losing: &Losing,
    fresh: &mut Fresh,
) -> Result<(), Memory>
    requires sized { IsSizedBody body.now }
    requires losing { (first : KeySeen) × IsLosing body.now first (edits_of edits.now) }
    requires loss { IsLossOf body.now (loss_of losing.now) }
    requires can { let e = losing_turn body.now (edits_of edits.now) (loss_of losing.now) in
        (t : Store Value) × ((r : TreeRoot) × IsRegraftable t r (own_of e fresh.old) set.old e.key
        (e.pieces fresh.old.next) (e.beside fresh.old.next) (fresh.old.next + e.blocks)) }
    requires low { 2 ^ 63 ≤ fresh.old.next }
    requires numbers { let e = losing_turn body.now (edits_of edits.now) (loss_of losing.now) in
        fresh.old.next + (e.blocks + (e.leaves + 64)) ≤ fresh.old.end }
    ensures turned { let e = losing_turn body.now (edits_of edits.now) (loss_of losing.now) in
        OnOk result ((t : Store Value) (r : TreeRoot)
        → IsRegraftable t r (own_of e fresh.old) set.old e.key (e.pieces fresh.old.next)
        (e.beside fresh.old.next) (fresh.old.next + e.blocks)
        → (after : FreshSeen) × IsTurned t r e fresh.old after set.old set.new) }
    ensures does { let e = losing_turn body.now (edits_of edits.now) (loss_of losing.now) in
        OnOk result ((t : Store Value) (r : TreeRoot)
        → IsRegraftable t r (own_of e fresh.old) set.old e.key (e.pieces fresh.old.next)
        (e.beside fresh.old.next) (fresh.old.next + e.blocks)
        → DoesBelow set.old set.new e.key (e.pieces fresh.old.next) (e.beside fresh.old.next)) }
    ensures left { OnOk result (fresh.new
        ≡ behind (losing_turn body.now (edits_of edits.now) (loss_of losing.now)) fresh.old) }
{
    // the end of the numbers is a u64, so no sum up to there overflows
    let _end = fresh.end;
    let taken = taken_from(body, losing);
    let id = taken_id(losing, NodeId(fresh.next));
    let after = pieces_after(alloc, Some(body), edits, &losing.twig, &[])?;
    let new = leaf_at(alloc, losing, &taken, id, after.as_slice())?;
    let pieces = taken_pieces(alloc, losing, after, &taken, NodeId(fresh.next))?;
    let old = gone_cells(alloc, losing)?;
    let next = fresh.next + numbers_taken(losing, new.as_slice());
    let mut own = Fresh {
        next,
        end: next + OWN_NUMBERS,
    };
    let below = Below {
        old,
        new,
        blocks: Vec::new(alloc),
    };
    regraft(
        alloc,
        set,
        &losing.twig.lo(),
        pieces.as_slice(),
        below,
        &mut own,
    )?;
    fresh.next = next + OWN_NUMBERS;
    Ok(())
}
