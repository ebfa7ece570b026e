//! Pieces that are packed into twigs, and read again.

ghost use Rattle.std.specs.Prelude.{◌≡◌, ℕ, ◌+◌, ◌*◌, ◌^◌, ◌<◌, ◌≤◌, IfOk, IfSome};
ghost use Rattle.r4_base.specs.Key.{IsKey, offset_of, rank};
ghost use Rattle.r4_branch.specs.Pieces.{AreTwigPieces, IsSound, IsSoundPart, MayStand, part_end, piece_end};

use r4_base::{Key, NodeId, Unit};
use r4_branch::{Twig, TwigPart, TwigPiece, pack_twigs, pieces_of};
use r4_node40::NodeView;
use std::alloc::Global;
use std::process::Abort;
use std::test::Fail;

/// A piece: from which block of its object it stands, its number, and its width; a pointer has none.
type Row = (u64, u64, u64);

/// The first number of what has no place yet.
const UNPLACED: u64 = 1 << 63;

/// One more than the last block of an object.
const BLOCKS: u64 = 1 << 52;

// The key of a block.
#[tactic(auto, unfolding(r4_base::specs::Key::rank))]
fn key_at(block: u64) -> Key
    requires { block < 2 ^ 52 }
    ensures key { IsKey result }
    ensures rank { rank result ≡ 4096 * block }
    ensures offset { offset_of result ≡ 4096 * block }
{
    Key {
        el: [0, 0, 0, 4096 * block],
    }
}

// A node or a block that has no place yet.
fn part_of(number: u64, width: u64) -> Option<TwigPart>
    ensures sound { IfSome result (λ p. (offset : ℕ) → offset + 4096 ≤ 2 ^ 64 → IsSoundPart offset p) }
    ensures end { IfSome result (λ p. (key : ℕ) → part_end key p ≤ key + 4096) }
{
    if number < UNPLACED || width > 1 {
        return None;
    }
    if width == 0 {
        return Some(TwigPart::Pointer(NodeId(number)));
    }
    Some(TwigPart::Blocks(Unit {
        start: number,
        width,
    }))
}

// A piece at a block that is not below the end.
fn piece_at(row: &Row, end: u64) -> Result<TwigPiece, Fail>
    ensures sound { IfOk result (λ p. IsSound p) }
    ensures at { IfOk result (λ p. rank p.key ≡ 4096 * row.now.0) }
    ensures from { IfOk result (λ p. end ≤ row.now.0) }
    ensures to { IfOk result (λ p. piece_end p ≤ 4096 * (row.now.0 + 1)) }
    ensures within { IfOk result (λ p. row.now.0 < 2 ^ 52) }
{
    let &(block, number, width) = row;
    if block < end || block >= BLOCKS {
        return Err(Fail::from("the pieces are out of order"));
    }
    match part_of(number, width) {
        Some(part) => Ok(TwigPiece {
            key: key_at(block),
            part,
        }),
        None => Err(Fail::from("it has a place")),
    }
}

// Pieces of an object, the first a pointer at its first block, and these behind it.
fn pieces_behind(alloc: Global, rows: &[Row]) -> Result<Vec<TwigPiece>, Fail>
    ensures { IfOk result (λ v. AreTwigPieces 0 (2 ^ 64) v.items) }
{
    let mut pieces = Vec::new(alloc);
    pieces.push(piece_at(&(0, UNPLACED, 0), 0)?)?;
    let mut end = 1;
    for row in rows {
        pieces.push(piece_at(row, end)?)?;
        end = row.0 + 1;
    }
    Ok(pieces)
}

// The pieces of a twig, behind the rows, and how many items it has.
fn read_back(alloc: Global, twig: &Twig, rows: &mut Vec<Row>) -> Result<u16, Fail>
    requires { (lo : ℕ) × (hi : ℕ) × MayStand lo hi twig.now.block }
{
    let Ok(view) = NodeView::read(twig.block.bytes()) else {
        return Err(Fail::from("it is no node"));
    };
    let pieces = pieces_of(alloc, &view)?;
    for piece in &pieces {
        let block = piece.key.el[3] / 4096;
        rows.push(match piece.part {
            TwigPart::Pointer(to) => (block, to.0, 0),
            TwigPart::Blocks(unit) => (block, unit.start, unit.width),
        })?;
    }
    Ok(view.len())
}

// How many items the twigs of these pieces have, and the rows that are read.
fn packed(alloc: Global, rows: &[Row]) -> Result<(Vec<u16>, Vec<Row>), Fail> {
    let pieces = pieces_behind(alloc, rows)?;
    let twigs = pack_twigs(alloc, key_at(0), 7, &pieces)?;
    let mut counts = Vec::new(alloc);
    let mut read = Vec::new(alloc);
    for twig in &twigs {
        counts.push(read_back(alloc, twig, &mut read)?)?;
    }
    Ok((counts, read))
}

// Pointers at so many blocks behind the first.
fn pointers(alloc: Global, count: u64) -> Result<Vec<Row>, Fail> {
    let mut rows = Vec::new(alloc);
    for i in 1..count {
        rows.push((i, UNPLACED + i % 1000, 0))?;
    }
    Ok(rows)
}

// Units of which the first two meet, behind a pointer.
static UNITS: [Row; 3] = [
    (1, UNPLACED + 1, 1),
    (2, UNPLACED + 9, 1),
    (4, UNPLACED + 2, 1),
];

// Looks at how many items the twigs of a case have, and at the rows that are read.
fn look<X: Abort>(rt: &X, case: usize, counts: &[u16], read: &[Row], items: &[u16], rows: &[Row]) {
    assert_eq!(rt; counts, items, "items of case {case}");
    assert_eq!(rt;
        read.first(),
        Some(&(0, UNPLACED, 0)),
        "first piece of case {case}"
    );
    assert_eq!(rt; &read[1..], rows, "pieces of case {case}");
}

#[test]
fn pieces_are_packed_and_read(rt: HostRuntime) -> Result<(), Fail> {
    let full = pointers(rt.alloc(), 88)?;
    let more = pointers(rt.alloc(), 89)?;
    let cases: [(&[Row], &[u16]); 3] = [(&UNITS, &[3]), (&full, &[88]), (&more, &[88, 1])];
    for (case, (rows, items)) in cases.iter().enumerate() {
        let (counts, read) = packed(rt.alloc(), rows)?;
        look(&rt, case, counts.as_slice(), read.as_slice(), items, rows);
    }
    Ok(())
}
