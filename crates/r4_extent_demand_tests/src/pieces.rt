//! The pieces of small twigs after edits, compared with lists that were made by hand.

ghost use Rattle.std.specs.Arc.{arc_value};
ghost use Rattle.std.specs.Option.{option_copied};
ghost use Rattle.std.specs.Prelude.{◌≡◌, ◌^◌, ◌≤◌, IfOk};
ghost use Rattle.r4_base.specs.Key.{IsKey, minor_of};
ghost use Rattle.r4_extent_demands.specs.Sizes.{IsSized, IsSizedBody};

use r4_base::{Attr, Block, Bytes, EXTENT, Key, NodeId, Oid, POINTER, Value};
use r4_branch::{TwigPart, TwigPiece};
use r4_cell::{Cell, read_cell};
use r4_content::{ByteRun, Edits, FilledInterval, Reply};
use r4_extent_demands::{SizedBody, pieces_after};
use r4_marking::{Asking, Heard};
use r4_search::Child;
use r4_twig_asks::twig_bytes;
use std::alloc::Global;
use std::process::Abort;
use std::sync::Arc;
use std::test::Fail;

/// What a twig has from a byte of the file on: so many blocks from a first one on, 0 for a hole; or the leaf of this
/// number, where there is no block.
type Row = (u64, u64, u64);

/// A new block, or a new leaf.
const NEW: u64 = 1 << 63;

// The key of a byte of the file.
fn byte(offset: u64) -> Key
    ensures minor { minor_of result ≡ 4 }
    ensures key { IsKey result }
{
    Key::body(41, 0, Oid(70_000), offset)
}

// The file's body, which stood in extents.
fn in_extents(first: u64, before: u64, after: u64) -> SizedBody
    requires before { before ≤ 2 ^ 30 }
    requires after { after ≤ 2 ^ 30 }
    ensures { IsSizedBody result }
{
    SizedBody::new(byte(first), before, after, true)
}

// The file's body, which stood in tails.
fn in_tails(first: u64, before: u64, after: u64) -> SizedBody
    requires before { before ≤ 2 ^ 30 }
    requires after { after ≤ 2 ^ 30 }
    ensures { IsSizedBody result }
{
    SizedBody::new(byte(first), before, after, false)
}

// Puts these bytes over others from a place on, as far as there are some.
fn set(bytes: &mut [u8], at: usize, from: &[u8]) {
    let mut place = at;
    for byte in from {
        if let Some(there) = bytes.get_mut(place) {
            *there = *byte;
        }
        place = place.saturating_add(1);
    }
}

// Writes an item whose body begins at a place, and answers where it ends.
fn set_item(bytes: &mut [u8], header: usize, from: u16, row: &Row) -> u16 {
    let (offset, start, width) = *row;
    let plugin = if width == 0 { POINTER } else { EXTENT };
    for (i, el) in byte(offset).el.iter().enumerate() {
        set(bytes, header.saturating_add(8 * i), &el.to_le_bytes());
    }
    set(bytes, header.saturating_add(32), &from.to_le_bytes());
    set(bytes, header.saturating_add(36), &plugin.to_le_bytes());
    set(bytes, usize::from(from), &start.to_le_bytes());
    if width == 0 {
        return from.saturating_add(8);
    }
    set(
        bytes,
        usize::from(from).saturating_add(8),
        &width.to_le_bytes(),
    );
    from.saturating_add(16)
}

// Writes the items of a twig and its header.
fn set_node(bytes: &mut [u8], rows: &[Row]) {
    let mut end: u16 = 28;
    let mut header: u16 = 4096;
    for row in rows {
        header = header.saturating_sub(38);
        end = set_item(bytes, usize::from(header), end, row);
    }
    let count = u16::try_from(rows.len()).unwrap_or(0);
    set_head(bytes, [count, header.saturating_sub(end), end]);
}

// Writes a twig's header. The counts are how many items there are, how many bytes are free, and where those begin.
fn set_head(bytes: &mut [u8], counts: [u16; 3]) {
    let [items, free, start] = counts;
    set(bytes, 2, &items.to_le_bytes());
    set(bytes, 4, &free.to_le_bytes());
    set(bytes, 6, &start.to_le_bytes());
    set(bytes, 8, &0x5234_4653u32.to_le_bytes());
    set(bytes, 26, &[2]);
}

// A twig of these items, of the keys from the first one's on and below another byte's.
fn twig(alloc: Global, rows: &[Row], hi: u64) -> Result<Arc<Cell>, Fail>
    ensures { IfOk result (λ c. (arc_value c).level ≡ 2) }
{
    let mut block = Block::zeroed(alloc)?;
    set_node(block.bytes_mut(), rows);
    let lo = rows.first().map_or(0, |row| row.0);
    match read_cell(alloc, NodeId(22), 2, byte(lo), byte(hi), 4096, block) {
        Ok(cell) => Ok(cell),
        Err(_) => Err(Fail::from("the twig is refused")),
    }
}

// Three bytes from each of these places on.
fn runs(alloc: Global, at: &[u64]) -> Result<Vec<ByteRun>, Fail> {
    let mut runs = Vec::new(alloc);
    for offset in at {
        runs.push(ByteRun {
            from: byte(*offset),
            bytes: Bytes::from_vec(alloc, Vec::from_slice(alloc, b"abc")?)?,
        })?;
    }
    Ok(runs)
}

// The bytes from one place up to another, if there are some.
fn fills(alloc: Global, fill: Option<(u64, u64)>) -> Result<Vec<FilledInterval>, Fail> {
    let mut fills = Vec::new(alloc);
    if let Some((from, to)) = fill {
        fills.push(FilledInterval {
            from: byte(from),
            to: byte(to),
            byte: 1,
        })?;
    }
    Ok(fills)
}

// Edits that set some bytes one by one, and some to one value.
fn edits(alloc: Global, at: &[u64], fill: Option<(u64, u64)>) -> Result<Edits, Fail> {
    let runs = runs(alloc, at)?;
    let fills = fills(alloc, fill)?;
    Ok(Edits {
        cuts: Vec::new(alloc),
        zeros: Vec::new(alloc),
        fills,
        runs,
        puts: Vec::new(alloc),
        reply: Reply::Okay,
    })
}

// A leaf that goes.
fn gone(id: u64, lo: u64, hi: u64) -> Heard {
    Heard {
        child: Child {
            id: NodeId(id),
            level: 1,
            lo: byte(lo),
            hi: byte(hi),
        },
        ask: Asking {
            more: 0,
            gone: true,
        },
    }
}

// Whether the pieces are these.
fn are(pieces: &[TwigPiece], rows: &[Row]) -> bool {
    pieces.len() == rows.len() && pieces.iter().zip(rows.iter()).all(|(p, r)| is(p, r))
}

// Whether a piece is so.
fn is(piece: &TwigPiece, row: &Row) -> bool {
    let (offset, start, width) = *row;
    let part = match piece.part {
        TwigPart::Pointer(to) => width == 0 && to.0 == start,
        TwigPart::Blocks(unit) => unit.start == start && unit.width == width,
    };
    part && piece.key == byte(offset)
}

// Ends the test unless the pieces of a twig are these after edits, where the leaves below it ask for this. Tells how many
// bytes they take up.
fn becomes<X: Abort>(
    rt: &X,
    alloc: Global,
    body: Option<&SizedBody>,
    edits: &Edits,
    twig: &Cell,
    heard: &[Heard],
    rows: &[Row],
) -> Result<u64, Fail>
    requires twig { twig.now.level ≡ 2 }
    requires sized { IsSized (option_copied body) }
{
    let pieces = pieces_after(alloc, body, edits, twig, heard)?;
    assert!(rt; are(&pieces, rows));
    Ok(twig_bytes(&pieces))
}

// Ends the test unless the pieces of a twig are these after edits that leave so many bytes of a body of 40,960. `first` is
// the first byte that changes.
fn shrinks<X: Abort>(
    rt: &X,
    alloc: Global,
    twig: &Cell,
    first: u64,
    after: u64,
    rows: &[Row],
) -> Result<(), Fail>
    requires twig { twig.now.level ≡ 2 }
    requires after { after ≤ 2 ^ 30 }
{
    let body = in_extents(first, 40_960, after);
    let edits = edits(alloc, &[], None)?;
    becomes(rt, alloc, Some(&body), &edits, twig, &[], rows)?;
    Ok(())
}

#[test]
fn a_block_comes_into_the_middle_of_a_hole(rt: HostRuntime) -> Result<(), Fail> {
    let alloc = rt.alloc();
    let twig = twig(alloc, &[(0, 0, 10)], 1 << 30)?;
    let body = in_extents(20_580, 40_960, 40_960);
    let edits = edits(alloc, &[20_580], None)?;
    let rows = [(0, 0, 5), (20_480, NEW, 1), (24_576, 0, 4)];
    let bytes = becomes(&rt, alloc, Some(&body), &edits, &twig, &[], &rows)?;
    assert_eq!(rt; bytes, 54 + 16 + 16);
    Ok(())
}

#[test]
fn blocks_come_behind_the_others(rt: HostRuntime) -> Result<(), Fail> {
    let alloc = rt.alloc();
    let twig = twig(alloc, &[(0, 100, 2)], 1 << 30)?;
    let body = in_extents(16_384, 8192, 24_000);
    let edits = edits(alloc, &[16_384], None)?;
    let rows = [(0, 100, 2), (8192, 0, 2), (16_384, NEW, 1), (20_480, 0, 1)];
    let bytes = becomes(&rt, alloc, Some(&body), &edits, &twig, &[], &rows)?;
    assert_eq!(rt; bytes, 54 + 16 + 16 + 16);
    Ok(())
}

// Blocks of a run at the beginning of a twig go.
fn blocks_of_a_run_go<X: Abort>(rt: &X, alloc: Global) -> Result<(), Fail> {
    let run = twig(alloc, &[(0, 100, 10)], 1 << 30)?;
    // a run is parted, and its range goes to the extent before it
    shrinks(rt, alloc, &run, 5000, 5000, &[(0, 100, 2)])?;
    // at the beginning of a twig it goes to a new leaf
    shrinks(rt, alloc, &run, 0, 0, &[(0, NEW, 0)])
}

// Blocks behind a leaf go.
fn blocks_behind_a_leaf_go<X: Abort>(rt: &X, alloc: Global) -> Result<(), Fail> {
    let rows = [(0, 30, 0), (8192, 0, 4), (24_576, 200, 4)];
    let behind = twig(alloc, &rows, 1 << 30)?;
    // behind a leaf it goes to that, also where the leaf is no leaf of the body
    shrinks(rt, alloc, &behind, 5000, 5000, &[(0, 30, 0)])?;
    // where nothing goes there is nothing to take up
    shrinks(rt, alloc, &behind, 0, 40_960, &rows)
}

#[test]
fn blocks_go(rt: HostRuntime) -> Result<(), Fail> {
    blocks_of_a_run_go(&rt, rt.alloc())?;
    blocks_behind_a_leaf_go(&rt, rt.alloc())
}

#[test]
fn a_body_turns(rt: HostRuntime) -> Result<(), Fail> {
    let alloc = rt.alloc();
    let leaves = [(0, 30, 0), (4000, 31, 0), (100_000, 32, 0)];
    let twig = twig(alloc, &leaves, 1 << 30)?;
    let body = in_tails(28_000, 10_000, 30_000);
    let edits = edits(alloc, &[], Some((28_000, 30_000)))?;
    let heard = [gone(30, 0, 4000), gone(31, 4000, 100_000)];
    let blocks = [
        (0, NEW, 1),
        (4096, NEW, 1),
        (8192, NEW, 1),
        (12_288, 0, 3),
        (24_576, NEW, 1),
        (28_672, NEW, 1),
        (100_000, 32, 0),
    ];
    let bytes = becomes(&rt, alloc, Some(&body), &edits, &twig, &heard, &blocks)?;
    assert_eq!(rt; bytes, 54 + 5 * 16 + 46);
    Ok(())
}

#[test]
fn pointers_go(rt: HostRuntime) -> Result<(), Fail> {
    let alloc = rt.alloc();
    let twig = twig(alloc, &[(0, 30, 0), (4000, 31, 0)], 1 << 30)?;
    let edits = edits(alloc, &[], None)?;
    let heard = [gone(31, 4000, 1 << 30)];
    becomes(&rt, alloc, None, &edits, &twig, &heard, &[(0, 30, 0)])?;
    Ok(())
}
