//! Whether blocks of a body may go of a twig, as its pieces and the cells of a task tell it
//! (docs/volume.md, "Bodies in extents").

ghost use Rattle.std.specs.Prelude.{◌≡◌, ◌+◌, ◌*◌, ◌%◌, ◌^◌, ◌≤◌, ◌||◌, ℕ, [], map, nat_le};
ghost use Rattle.std.specs.Prelude.{if◌then◌else◌, true};
ghost use Rattle.std.specs.Arc.{arc_value};
ghost use Rattle.std.specs.List.{list_all, list_any};
ghost use Rattle.std.specs.Option.{option_map};
ghost use Rattle.r4_base.specs.Cell.{run_names};
ghost use Rattle.r4_base.specs.Key.{offset_of, rank};
ghost use Rattle.r4_extent_growth.specs.r4_extent_demands.Sizes.{IsSizedBody};
ghost use Rattle.r4_extent_growth.specs.r4_measure.r4_branch.Pieces.{Follow, IsSound, names_of, next_of, part_names};
ghost use Rattle.r4_extent_growth.specs.r4_measure.r4_path.TwigPieces.{ArePiecesOf};
ghost use Rattle.r4_extent_growth.specs.Turning.{ends_by};
ghost use Rattle.r4_extent_shrink.specs.Going.{block_suits, has_key, has_number, is_behind};
ghost use Rattle.r4_extent_shrink.specs.Going.{is_border, leaf_suits, may_leave, name_suits};
ghost use Rattle.r4_extent_shrink.specs.Going.{pieces_suit};

use r4_base::{BLOCK_BYTES, Key, NodeId, Unit};
use r4_extent_growth::{
    Cell, KeyRange, SizedBody, TwigPart, TwigPiece, ends_by, gone_of, unit_end,
};
use std::sync::Arc;

// Whether the blocks that go of a twig may go, where these are its pieces.
pub(crate) fn may_leave(
    body: &SizedBody,
    cells: &[Arc<Cell>],
    twig: &Cell,
    pieces: &[TwigPiece],
) -> bool
    requires sized { IsSizedBody body.now }
    requires in_extents { body.now.in_extents ≡ true }
    requires pieces { ArePiecesOf twig.now pieces.now }
    ensures { result ≡ may_leave body.now (map (λ c. arc_value c) cells.now) twig.now }
{
    let gone = gone_of(body, twig);
    pieces_suit(&gone, pieces) && names_suit(&gone, cells, twig.hi(), pieces)
}

// ---- pieces

// Whether a range begins and ends at borders of blocks, and a unit has its first key.
fn pieces_suit(gone: &KeyRange, pieces: &[TwigPiece]) -> bool
    ensures { result ≡ pieces_suit (rank gone.now.from) (rank gone.now.to) pieces.now }
{
    are_borders(pieces, &gone.from) && (are_borders(pieces, &gone.to) && have(pieces, &gone.from))
}

// Whether a key is at the border of a block of each of the pieces, if it lies in one.
fn are_borders(pieces: &[TwigPiece], key: &Key) -> bool
    ensures { result ≡ list_all (is_border (rank key.now)) pieces.now }
{
    pieces.iter().all(|piece| is_border(piece, key))
}

// Whether a key is at the border of a block of a piece, if it lies in one.
fn is_border(piece: &TwigPiece, key: &Key) -> bool
    ensures { result ≡ is_border (rank key.now) piece.now }
{
    !piece.key.is_below(*key) || (ends_by(piece, key) || in_block(key) == in_block(&piece.key))
}

// How far a key is behind the border of a block, where blocks begin at whole ones.
fn in_block(key: &Key) -> u64
    ensures { result ≡ rank key.now % 4096 }
{
    key.el[3] % BLOCK_BYTES
}

// Whether one of the pieces is a unit that has a key.
fn have(pieces: &[TwigPiece], key: &Key) -> bool
    ensures { result ≡ list_any (has_key (rank key.now)) pieces.now }
{
    pieces.iter().any(|piece| has_key(piece, key))
}

// Whether a piece is a unit that has a key.
fn has_key(piece: &TwigPiece, key: &Key) -> bool
    ensures { result ≡ has_key (rank key.now) piece.now }
{
    !key.is_below(piece.key) && is_behind(unit_end(piece), key)
}

// Whether a unit's end is known, and behind a key.
fn is_behind(end: Option<Key>, key: &Key) -> bool
    ensures { result ≡ is_behind (rank key.now) (option_map rank end) }
{
    match end {
        None => false,
        Some(end) => key.is_below(end),
    }
}

// ---- names

// Whether what the pieces name stays, or is among the cells.
fn names_suit(gone: &KeyRange, cells: &[Arc<Cell>], hi: Key, pieces: &[TwigPiece]) -> bool
    requires { (from : ℕ) × Follow from (rank hi) pieces.now }
    ensures { result
        ≡ list_all (name_suits (rank gone.now.from) (rank gone.now.to)
        (map (λ c. arc_value c) cells.now)) (names_of (rank hi) pieces.now) }
{
    match pieces.split_first() {
        None => true,
        Some((first, rest)) => {
            let next = first_key(rest, hi);
            part_suits(gone, cells, first, next) && names_suit(gone, cells, hi, rest)
        }
    }
}

// The key of the first piece, or else the end of the range.
fn first_key(pieces: &[TwigPiece], hi: Key) -> Key
    ensures { rank result ≡ next_of (rank hi) pieces.now }
{
    match pieces.first() {
        None => hi,
        Some(first) => first.key,
    }
}

// Whether what a piece names stays, or is among the cells.
fn part_suits(gone: &KeyRange, cells: &[Arc<Cell>], piece: &TwigPiece, next: Key) -> bool
    requires { IsSound piece.now }
    ensures { result
        ≡ list_all (name_suits (rank gone.now.from) (rank gone.now.to)
        (map (λ c. arc_value c) cells.now))
        (part_names (rank piece.now.key) (rank next) piece.now.part) }
{
    match piece.part {
        TwigPart::Pointer(to) => leaf_suits(gone, cells, to, &piece.key, &next),
        TwigPart::Blocks(unit) => {
            // the blocks of other ranges are many, and not looked at
            unit.start == 0 || (is_apart(gone, piece) || run_suits(gone, cells, piece.key, unit))
        }
    }
}

// Whether a piece begins behind the keys that go, or ends before them.
fn is_apart(gone: &KeyRange, piece: &TwigPiece) -> bool
    ensures { result ≡ (nat_le (rank gone.now.to) (rank piece.now.key)
        || ends_by (rank gone.now.from) piece.now) }
{
    !piece.key.is_below(gone.to) || ends_by(piece, &gone.from)
}

// Whether a leaf has none of the keys that go, and is among the cells, if it ends where they begin.
fn leaf_suits(gone: &KeyRange, cells: &[Arc<Cell>], id: NodeId, lo: &Key, hi: &Key) -> bool
    ensures { result
        ≡ leaf_suits (rank gone.now.from) (rank gone.now.to) (map (λ c. arc_value c) cells.now)
        (rank lo.now) (rank hi.now) id.0 }
{
    (!lo.is_below(gone.to) || !gone.from.is_below(*hi))
        && (!hi.is_same(gone.from) || has_number(cells, id.0))
}

// Whether the blocks of a unit stay, or are among the cells.
fn run_suits(gone: &KeyRange, cells: &[Arc<Cell>], key: Key, unit: Unit) -> bool
    requires fits { offset_of key + 4096 * unit.width ≤ 2 ^ 64 }
    requires starts { unit.start + unit.width ≤ 2 ^ 64 }
    ensures { result
        ≡ list_all (name_suits (rank gone.now.from) (rank gone.now.to)
        (map (λ c. arc_value c) cells.now)) (run_names (rank key) unit.start unit.width) }
{
    for i in 0..unit.width {
        if !block_suits(gone, cells, unit.start + i, key.behind(i * BLOCK_BYTES)) {
            return false;
        }
    }
    true
}

// Whether a block does not begin at one of the keys that go, or is among the cells.
fn block_suits(gone: &KeyRange, cells: &[Arc<Cell>], id: u64, lo: Key) -> bool
    ensures { result
        ≡ block_suits (rank gone.now.from) (rank gone.now.to) (map (λ c. arc_value c) cells.now)
        (rank lo) id }
{
    let goes = !lo.is_below(gone.from) && lo.is_below(gone.to);
    !goes || has_number(cells, id)
}

// Whether one of the cells has a number.
fn has_number(cells: &[Arc<Cell>], id: u64) -> bool
    ensures { result ≡ has_number (map (λ c. arc_value c) cells.now) id }
{
    for cell in cells {
        if cell.id().0 == id {
            return true;
        }
    }
    false
}
