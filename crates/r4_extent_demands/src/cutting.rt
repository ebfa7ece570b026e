//! Pieces of a twig without the blocks that go (docs/volume.md, "Reach").

ghost use Rattle.std.specs.Prelude.{◌≡◌, ◌-◌, ◌≤◌, ◌&&◌, ◌++◌, ◌∷◌, [], All, IfOk, OnOk, None};
ghost use Rattle.std.specs.Prelude.{drop, length, map, take};
ghost use Rattle.std.specs.List.{list_any};
ghost use Rattle.std.specs.Option.{option_map};
ghost use Rattle.r4_base.specs.Key.{rank};
ghost use Rattle.r4_graft.specs.r4_branch.Pieces.{is_at, last_end, next_of, open_end};
ghost use Rattle.r4_bodies.specs.r4_cell.Seen.{node_of};
ghost use Rattle.r4_bodies.specs.r4_marking.Marks.{heard_seen};
ghost use Rattle.r4_bodies.specs.r4_leaf_edits.r4_path.TwigPieces.{ArePiecesOf};
ghost use Rattle.r4_bodies.specs.r4_leaf_edits.r4_reach.Needs.{cut_pieces, points_to, taken_up, without_gone};
ghost use Rattle.r4_bodies.specs.r4_leaf_edits.r4_reach.Touched.{going};
ghost use Rattle.r4_extent_demands.specs.Pieces.{HasRoom, ends_leaf, has_leaf_end, without_between};
ghost use Rattle.r4_extent_demands.specs.Sizes.{IsSizedBody};

use crate::parting::part_each;
use crate::sized_body::SizedBody;
use r4_base::{BLOCK_BYTES, Key, Memory, NodeId, UNPLACED};
use r4_bodies::{Cell, Heard, KeyRange};
use r4_graft::{TwigPart, TwigPiece, place_of, splice};
use std::alloc::Global;

/// The pieces but for the pointers to those leaves that go.
pub(crate) fn without_gone(
    alloc: Global,
    pieces: &[TwigPiece],
    heard: &[Heard],
) -> Result<Vec<TwigPiece>, Memory>
    ensures { IfOk result (λ v. v.items
        ≡ without_gone (map heard_seen heard.now) pieces.now) }
{
    let mut left = Vec::new(alloc);
    for piece in pieces {
        add_unless_gone(&mut left, piece, heard)?;
    }
    Ok(left)
}

// Puts a piece behind the others, unless it points to a leaf that goes.
fn add_unless_gone(
    left: &mut Vec<TwigPiece>,
    piece: &TwigPiece,
    heard: &[Heard],
) -> Result<(), Memory>
    ensures { OnOk result (left.new.items
        ≡ left.old.items ++ without_gone (map heard_seen heard.now) (piece.now ∷ [])) }
{
    if goes(&piece.part, heard) {
        return Ok(());
    }
    left.push(*piece)?;
    Ok(())
}

// Whether a part points to a leaf that goes.
fn goes(part: &TwigPart, heard: &[Heard]) -> bool
    ensures { result ≡ list_any (λ h. h.1.gone && points_to h.0.id part.now)
        (map heard_seen heard.now) }
{
    match heard.split_first() {
        None => false,
        Some((first, rest)) => {
            first.ask.gone && points_to(first.child.id, part) || goes(part, rest)
        }
    }
}

// Whether a part is a pointer to the node of a number.
fn points_to(id: NodeId, part: &TwigPart) -> bool
    ensures { result ≡ points_to id.0 part.now }
{
    match part {
        TwigPart::Pointer(to) => to.0 == id.0,
        TwigPart::Blocks(_) => false,
    }
}

/// These of a twig's pieces without the blocks of the body that go. Their range goes to the extent or the leaf before
/// them, or else to a new leaf. All pieces of the twig are given too. `Memory` where there was not enough
/// (docs/volume.md, "Reach").
pub fn cut(
    alloc: Global,
    body: &SizedBody,
    twig: &Cell,
    all: &[TwigPiece],
    left: &[TwigPiece],
) -> Result<Vec<TwigPiece>, Memory>
    requires sized { IsSizedBody body.now }
    requires pieces { ArePiecesOf twig.now all.now }
    requires room { All HasRoom left.now }
    ensures items { IfOk result (λ v. v.items
        ≡ cut_pieces (going body.now) (node_of twig.now) left.now) }
    ensures room { IfOk result (λ v. All HasRoom v.items) }
{
    let going = body.going();
    let first = part_each(alloc, left, &going.from)?;
    let parts = part_each(alloc, first.as_slice(), &going.to)?;
    let pieces = without_between(alloc, twig, all, parts.as_slice(), &going)?;
    Ok(pieces)
}

// The pieces without those that begin in a range; what takes up their range comes in their place.
fn without_between(
    alloc: Global,
    twig: &Cell,
    all: &[TwigPiece],
    pieces: &[TwigPiece],
    range: &KeyRange,
) -> Result<Vec<TwigPiece>, Memory>
    requires pieces { ArePiecesOf twig.now all.now }
    requires room { All HasRoom pieces.now }
    ensures items { IfOk result (λ v. v.items ≡ without_between (node_of twig.now)
        (rank range.now.from) (rank range.now.to) pieces.now) }
    ensures room { IfOk result (λ v. All HasRoom v.items) }
{
    let from = place_of(pieces, &range.from);
    let to = place_of(pieces, &range.to);
    let middle = taken_up(alloc, twig, all, pieces, from, to)?;
    let left = splice(alloc, pieces, from, to, middle.as_slice())?;
    Ok(left)
}

/// What comes in the place of the pieces from one place up to another: nothing, or a pointer to a new leaf. All pieces
/// of the twig are given too. `Memory` where there was not enough (docs/volume.md, "Reach").
pub fn taken_up(
    alloc: Global,
    twig: &Cell,
    all: &[TwigPiece],
    pieces: &[TwigPiece],
    from: usize,
    to: usize,
) -> Result<Vec<TwigPiece>, Memory>
    requires pieces { ArePiecesOf twig.now all.now }
    requires room { All HasRoom pieces.now }
    requires within { to ≤ length pieces.now }
    ensures items { IfOk result (λ v. v.items ≡ taken_up (node_of twig.now) (take from pieces.now)
        (take (to - from) (drop from pieces.now))) }
    ensures room { IfOk result (λ v. All HasRoom v.items) }
{
    let mut middle = Vec::new(alloc);
    if from >= to {
        return Ok(middle);
    }
    let key = pieces[from].key;
    if has_leaf_end(all, twig.hi(), key) {
        return Ok(middle);
    }
    if ends_at(&pieces[..from], key) {
        return Ok(middle);
    }
    middle.push(TwigPiece {
        key,
        part: TwigPart::Pointer(NodeId(UNPLACED)),
    })?;
    Ok(middle)
}

// Whether a leaf to which one of the pieces points ends at a key; the last piece's range ends at `hi`.
fn has_leaf_end(pieces: &[TwigPiece], hi: Key, key: Key) -> bool
    ensures { result ≡ has_leaf_end (rank hi) (rank key) pieces.now }
{
    match pieces.split_first() {
        None => false,
        Some((first, rest)) => {
            ends_leaf(&first.part, next_key(rest, hi), key) || has_leaf_end(rest, hi, key)
        }
    }
}

// Whether a part points to a leaf, whose range ends at a key.
fn ends_leaf(part: &TwigPart, next: Key, key: Key) -> bool
    ensures { result ≡ ends_leaf (rank next) (rank key) part.now }
{
    match part {
        TwigPart::Pointer(_) => next.is_same(key),
        TwigPart::Blocks(_) => false,
    }
}

// The key of the first piece, or another one where there is none.
fn next_key(pieces: &[TwigPiece], hi: Key) -> Key
    ensures { rank result ≡ next_of (rank hi) pieces.now }
{
    match pieces.first() {
        None => hi,
        Some(first) => first.key,
    }
}

// Whether the last piece is a unit that ends at a key, before the end of its object.
fn ends_at(pieces: &[TwigPiece], key: Key) -> bool
    ensures { result ≡ is_at (last_end None pieces.now) (rank key) }
{
    if pieces.is_empty() {
        return false;
    }
    match unit_end(&pieces[pieces.len() - 1]) {
        None => false,
        Some(end) => end.is_same(key),
    }
}

/// The key at which a piece's unit ends, where that is before the end of its object.
pub fn unit_end(piece: &TwigPiece) -> Option<Key>
    ensures { option_map rank result ≡ open_end piece.now }
{
    let TwigPart::Blocks(unit) = piece.part else {
        return None;
    };
    let bytes = unit.width.checked_mul(BLOCK_BYTES)?;
    let offset = piece.key.el[3].checked_add(bytes)?;
    Some(piece.key.with_offset(offset))
}
