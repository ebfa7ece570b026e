//! Leaves that go out of the way of what comes, or begin behind it (docs/volume.md, "Bodies in extents").

ghost use Rattle.std.specs.Prelude.{◌≡◌, ◌<◌, ◌≤◌, ◌&&◌, [], Contains, IfOk, IfSome, map, true};
ghost use Rattle.std.specs.Arc.{arc_value};
ghost use Rattle.r4_base.specs.Key.{rank};
ghost use Rattle.r4_base.specs.Node.{items_of};
ghost use Rattle.r4_work.specs.r4_branch.Pieces.{next_of};
ghost use Rattle.r4_row_gather.specs.Clearing.{AreSortedOut, IsBegunLater, IsCleared, IsLeafAt};
ghost use Rattle.r4_row_gather.specs.Clearing.{IsShortened, begins_in_way, is_in_way, is_pointer};

use r4_base::{Key, LEAF, Memory};
use r4_work::{Cell, Fresh, KeyRange, TwigPart, TwigPiece, right_part};
use std::alloc::Global;
use std::sync::Arc;

/// Pieces that stay, leaves that go to which pieces pointed, and those that come in the place of some of these.
#[derive(Drop)]
pub(crate) struct Clearing {
    pub pieces: Vec<TwigPiece>,
    pub gone: Vec<Arc<Cell>>,
    pub come: Vec<Arc<Cell>>,
}

/// Takes leaves out of the way of what comes in a range of keys, where these pieces, up to a key, point to them and they
/// begin in the range: a leaf without items goes, and one whose first unit is behind the range begins there. `None` where
/// no leaf begins in the range; and where one is not among the cells, or has a unit in the range, or the piece before it is
/// none or points to a leaf, whose range would have to become longer. The only error is want of memory (docs/volume.md,
/// "Bodies in extents").
pub(crate) fn cleared(
    alloc: Global,
    cells: &[Arc<Cell>],
    pieces: &[TwigPiece],
    hi: Key,
    keys: &KeyRange,
) -> Result<Option<Clearing>, Memory>
    ensures { IfOk result (λ o. IfSome o (IsCleared (map (λ c. arc_value c) cells.now)
        (rank keys.now.from) (rank keys.now.to) (rank hi) pieces.now)) }
{
    if begins_in_way(pieces, keys) {
        return Ok(None);
    }
    let mut sorted = Clearing {
        pieces: Vec::new(alloc),
        gone: Vec::new(alloc),
        come: Vec::new(alloc),
    };
    if !sort_out(alloc, cells, pieces, hi, keys, &mut sorted)? {
        return Ok(None);
    }
    if sorted.gone.is_empty() {
        return Ok(None);
    }
    Ok(Some(sorted))
}

// Puts the pieces that stay and the leaves that go and come behind others; or says that this may not be.
fn sort_out(
    alloc: Global,
    cells: &[Arc<Cell>],
    pieces: &[TwigPiece],
    hi: Key,
    keys: &KeyRange,
    sorted: &mut Clearing,
) -> Result<bool, Memory>
    ensures { IfOk result (λ ok. ok ≡ true → AreSortedOut (map (λ c. arc_value c) cells.now)
        (rank keys.now.from) (rank keys.now.to) (rank hi) pieces.now sorted.old sorted.new) }
{
    let Some((first, rest)) = pieces.split_first() else {
        return Ok(true);
    };
    if !is_in_way(first, keys) {
        if becomes_longer(first, rest, keys) {
            return Ok(false);
        }
        sorted.pieces.push(*first)?;
        return sort_out(alloc, cells, rest, hi, keys, sorted);
    }
    let Some(leaf) = leaf_at(cells, first, end_of(rest, hi)) else {
        return Ok(false);
    };
    if is_empty(leaf) {
        sorted.gone.push(Arc::try_clone(leaf)?)?;
        return sort_out(alloc, cells, rest, hi, keys, sorted);
    }
    if begins_in_way(rest, keys) {
        return Ok(false);
    }
    if !begin_later(alloc, leaf, first, keys.to, sorted)? {
        return Ok(false);
    }
    sort_out(alloc, cells, rest, hi, keys, sorted)
}

// Puts a piece that points to a leaf behind others, from the leaf's first unit on, with that part of the leaf; or says
// that this unit is below a key.
fn begin_later(
    alloc: Global,
    leaf: &Arc<Cell>,
    piece: &TwigPiece,
    key: Key,
    sorted: &mut Clearing,
) -> Result<bool, Memory>
    requires level { (arc_value leaf.now).level ≡ 1 }
    requires some { rank (arc_value leaf.now).lo < rank (arc_value leaf.now).hi }
    ensures { IfOk result (λ ok. ok ≡ true
        → IsBegunLater (rank key) piece.now (arc_value leaf.now) sorted.old sorted.new) }
{
    let Some(later) = shortened(alloc, leaf)? else {
        return Ok(false);
    };
    if later.lo().is_below(key) {
        return Ok(false);
    }
    sorted.pieces.push(TwigPiece {
        key: later.lo(),
        part: piece.part,
    })?;
    sorted.gone.push(Arc::try_clone(leaf)?)?;
    sorted.come.push(later)?;
    Ok(true)
}

// A leaf from its first unit on, if it has one.
fn shortened(alloc: Global, leaf: &Cell) -> Result<Option<Arc<Cell>>, Memory>
    requires level { leaf.now.level ≡ 1 }
    requires some { rank leaf.now.lo < rank leaf.now.hi }
    ensures { IfOk result (λ o. IfSome o (λ c. IsShortened leaf.now (arc_value c))) }
{
    let lo = leaf.lo();
    // what is from a leaf's first key on has its number, and takes no other
    let mut none = Fresh { next: 0, end: 1 };
    let Some(part) = right_part(alloc, leaf, &lo, &mut none)? else {
        return Ok(None);
    };
    if !part.lo().is_below(leaf.hi()) {
        return Ok(None);
    }
    Ok(Some(part))
}

// Whether a piece points to a leaf, and behind it is one that goes or begins later, so that the leaf's range would have to
// become longer.
fn becomes_longer(piece: &TwigPiece, behind: &[TwigPiece], keys: &KeyRange) -> bool
    ensures { result ≡ (is_pointer piece.now.part
        && begins_in_way (rank keys.now.from) (rank keys.now.to) behind.now) }
{
    is_pointer(&piece.part) && begins_in_way(behind, keys)
}

// Where the range of a piece before these ends.
fn end_of(behind: &[TwigPiece], hi: Key) -> Key
    ensures { rank result ≡ next_of (rank hi) behind.now }
{
    match behind.first() {
        Some(next) => next.key,
        None => hi,
    }
}

// Whether the first of some pieces points to a leaf and begins in a range of keys.
fn begins_in_way(pieces: &[TwigPiece], keys: &KeyRange) -> bool
    ensures { result ≡ begins_in_way (rank keys.now.from) (rank keys.now.to) pieces.now }
{
    match pieces.first() {
        Some(first) => is_in_way(first, keys),
        None => false,
    }
}

// Whether a piece points to a leaf and begins in a range of keys.
fn is_in_way(piece: &TwigPiece, keys: &KeyRange) -> bool
    ensures { result ≡ is_in_way (rank keys.now.from) (rank keys.now.to) piece.now }
{
    is_pointer(&piece.part) && !piece.key.is_below(keys.from) && piece.key.is_below(keys.to)
}

// Whether a part is a pointer.
fn is_pointer(part: &TwigPart) -> bool
    ensures { result ≡ is_pointer part.now }
{
    match part {
        TwigPart::Pointer(_) => true,
        TwigPart::Blocks(_) => false,
    }
}

// The leaf among some cells to which a piece points that ends at a key.
fn leaf_at<'a>(cells: &'a [Arc<Cell>], piece: &TwigPiece, end: Key) -> Option<&'a Arc<Cell>>
    ensures among { IfSome result (λ c. Contains (map (λ x. arc_value x) cells.now)
        (arc_value c.now)) }
    ensures leaf { IfSome result (λ c. IsLeafAt (rank end) piece.now (arc_value c.now)) }
{
    for cell in cells {
        if is_leaf_at(cell, piece, end) {
            return Some(cell);
        }
    }
    None
}

// Whether a cell is the leaf to which a piece points that ends at a key.
fn is_leaf_at(cell: &Cell, piece: &TwigPiece, end: Key) -> bool
    ensures { result ≡ true → IsLeafAt (rank end) piece.now cell.now }
{
    let TwigPart::Pointer(to) = piece.part else {
        return false;
    };
    if cell.level() != LEAF || cell.id().0 != to.0 {
        return false;
    }
    cell.lo().is_same(piece.key) && cell.hi().is_same(end) && cell.lo().is_below(end)
}

// Whether a leaf has no items.
fn is_empty(leaf: &Cell) -> bool
    requires { leaf.now.level ≡ 1 }
    ensures { result ≡ true → items_of leaf.now.block ≡ [] }
{
    leaf.node().len() == 0
}
