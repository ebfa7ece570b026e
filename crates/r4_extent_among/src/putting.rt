//! Values are put among the extents of a twig (docs/volume.md, "Bodies in extents").

ghost use Rattle.std.specs.Prelude.{◌≡◌, ◌+◌, ◌^◌, ◌≤◌, IfOk, length, map};
ghost use Rattle.std.specs.Arc.{arc_value};
ghost use Rattle.std.specs.Option.{option_copied};
ghost use Rattle.r4_base.specs.Key.{key_of_rank, rank};
ghost use Rattle.r4_base.specs.Tree.{Root as TreeRoot, Store};
ghost use Rattle.r4_base.specs.Value.{Value};
ghost use Rattle.r4_extent_build.specs.r4_cell.Seen.{node_of};
ghost use Rattle.r4_content.specs.Held.{edits_of};
ghost use Rattle.r4_extent_build.specs.r4_extent_demands.Sizes.{AreExtentEdits};
ghost use Rattle.r4_build.specs.r4_path.TwigPieces.{put_pieces};
ghost use Rattle.r4_build.specs.r4_reach.Needs.{put_among};
ghost use Rattle.r4_extent_among.specs.Among.{AreNewLeaves, IsAmong, numbered, with_leaves};
ghost use Rattle.r4_extent_among.specs.AmongIn.{CanPutAmong, HasPutAmong};

use crate::extents::extents_of;
use crate::leaves::leaves_in;
use r4_base::{Key, Memory, NodeId, get32};
use r4_build::{Cell, Fresh, add, pieces_of_cell, put_among as put_pieces};
use r4_content::Edits;
use r4_extent_build::{Below, SizedBody, TwigPart, TwigPiece, WorkingSet, regraft};
use std::alloc::Global;
use std::sync::Arc;

/// How many numbers the twig has of its own, for the twigs and nodes that may come beside it and
/// above.
const OWN_NUMBERS: u64 = 64;

/// Packs a standing twig anew, so that it points to new leaves with the values that the edits put
/// into the ranges of its extents, but for the bytes of a body that stands in extents afterwards.
/// Behind each extent into whose range values come there is one leaf, or as many as they need, from
/// the first value's key up to where the range ends. The leaves take the next numbers, and 64 more
/// are the twig's own, whether it needs them or not. No other leaf changes. It gives the new
/// leaves. The only error is want of memory; then numbers may have been taken (docs/volume.md,
/// "Bodies in extents").
pub fn put_among(
    alloc: Global,
    set: &mut WorkingSet,
    body: Option<&SizedBody>,
    edits: &Edits,
    twig: &Cell,
    fresh: &mut Fresh,
) -> Result<Vec<Arc<Cell>>, Memory>
    requires edits { AreExtentEdits (option_copied body) (edits_of edits.now) }
    requires can { (t : Store Value) × ((r : TreeRoot) × CanPutAmong (option_copied body)
        (edits_of edits.now) t r twig.now fresh.old set.old) }
    ensures { IfOk result (λ v. HasPutAmong (option_copied body.entry) (edits_of edits.now) twig.now
        fresh.old fresh.new set.old set.new (map (λ c. arc_value c) v.items)) }
{
    // the end of the numbers is a u64, so no sum up to there overflows
    let _end = fresh.end;
    let leaves = new_leaves(alloc, body, edits, twig, fresh)?;
    let old = pieces_of_cell(alloc, twig)?;
    let pieces = with_leaves(alloc, old, leaves.as_slice())?;
    let below = Below {
        old: Vec::new(alloc),
        new: all_of(alloc, leaves.as_slice())?,
        blocks: Vec::new(alloc),
    };
    let mut own = Fresh {
        next: fresh.next,
        end: fresh.next + OWN_NUMBERS,
    };
    regraft(alloc, set, &twig.lo(), pieces.as_slice(), below, &mut own)?;
    fresh.next += OWN_NUMBERS;
    Ok(leaves)
}

// The leaves of the values that come into the ranges of the twig's extents, with its mkfs_id.
fn new_leaves(
    alloc: Global,
    body: Option<&SizedBody>,
    edits: &Edits,
    twig: &Cell,
    fresh: &mut Fresh,
) -> Result<Vec<Arc<Cell>>, Memory>
    requires edits { AreExtentEdits (option_copied body) (edits_of edits.now) }
    requires among { IsAmong (option_copied body) (edits_of edits.now) twig.now }
    requires numbers { fresh.old.next + (put_among (option_copied body) (edits_of edits.now)
        (node_of twig.now) + 2) ≤ fresh.old.end }
    ensures leaves { IfOk result (λ v. AreNewLeaves (option_copied body.entry) (edits_of edits.now)
        twig.now (map (λ c. arc_value c) v.items)) }
    ensures numbered { IfOk result (λ v. map (λ c. arc_value c) v.items
        ≡ numbered fresh.old.next (map (λ c. arc_value c) v.items)) }
    ensures fresh { IfOk result (λ v. fresh.new ≡ record fresh.old {
      next = fresh.old.next + length (map (λ c. arc_value c) v.items);
    }) }
{
    let ranges = extents_of(alloc, twig)?;
    let mkfs_id = get32(twig.block().bytes(), 12);
    leaves_in(alloc, body, edits, mkfs_id, ranges.as_slice(), fresh)
}

// Pieces with pointers to these leaves, each where its key belongs.
fn with_leaves(
    alloc: Global,
    pieces: Vec<TwigPiece>,
    leaves: &[Arc<Cell>],
) -> Result<Vec<TwigPiece>, Memory>
    ensures { IfOk result (λ v. v.items
        ≡ with_leaves (map (λ c. arc_value c) leaves.now) pieces.items) }
{
    match leaves.split_first() {
        None => Ok(pieces),
        Some((first, rest)) => {
            let others = with_leaves(alloc, pieces, rest)?;
            let pointer = [pointer(first.lo(), first.id())];
            put_pieces(alloc, others.as_slice(), &first.lo(), &pointer)
        }
    }
}

// The pointer to a leaf that begins with a key.
fn pointer(key: Key, id: NodeId) -> TwigPiece
    ensures { result ≡ record {
      key = key_of_rank (rank key);
      part = TwigPart.Pointer (record { 0 = id.0 });
    } }
{
    TwigPiece {
        key,
        part: TwigPart::Pointer(id),
    }
}

// All of these cells, shared.
fn all_of(alloc: Global, cells: &[Arc<Cell>]) -> Result<Vec<Arc<Cell>>, Memory>
    ensures { IfOk result (λ v. map (λ c. arc_value c) v.items
        ≡ map (λ c. arc_value c) cells.now) }
{
    let mut all = Vec::with_capacity(alloc, cells.len())?;
    add(&mut all, cells)?;
    Ok(all)
}
