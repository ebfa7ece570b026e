//! Whether the bytes that edits set get their places among the cells of a task (docs/volume.md,
//! "Bodies in extents").

ghost use Rattle.std.specs.Prelude.{◌≡◌, ◌++◌, IfOk, OnOk, Some, map, true};
ghost use Rattle.std.specs.Arc.{arc_value};
ghost use Rattle.std.specs.List.{flat_map, list_any};
ghost use Rattle.r4_base.specs.Key.{rank};
ghost use Rattle.r4_base.specs.declared.key.Key.{Key as KeySeen};
ghost use Rattle.r4_content.specs.Edited.{is_between};
ghost use Rattle.r4_content.specs.Held.{edits_of, interval_of};
ghost use Rattle.r4_lost_tasks.specs.r4_extent_growth.r4_extent_build.Growing.{IsGrowing};
ghost use Rattle.r4_lost_tasks.specs.r4_extent_growth.r4_extent_build.Setting.{is_hole_of};
ghost use Rattle.r4_lost_tasks.specs.r4_extent_growth.r4_extent_change.Beside.{is_turning};
ghost use Rattle.r4_lost_tasks.specs.r4_extent_growth.r4_extent_demands.Sizes.{AreExtentEdits, IsSizedBody};
ghost use Rattle.r4_lost_tasks.specs.r4_extent_growth.r4_measure.r4_reach.Touched.{coming};
ghost use Rattle.r4_lost_tasks.specs.r4_extent_growth.r4_measure.r4_path.TwigPieces.{ArePiecesOf, twig_pieces};
ghost use Rattle.r4_grown_tasks.specs.Places.{AreRead, HavePlaces, cell_ranges, coming_range, has_first};
ghost use Rattle.r4_grown_tasks.specs.Places.{have_first, have_places, hole_range, places, still};
ghost use Rattle.r4_grown_tasks.specs.Places.{still_ranges, twig_ranges};

use crate::covering::{puts_lie, zeros_lie};
use r4_base::{Key, Memory};
use r4_content::{Edits, Interval};
use r4_lost_tasks::{
    Cell, SizedBody, TwigPart, TwigPiece, changes_pieces, pieces_of_cell, unit_end,
};
use std::alloc::Global;
use std::sync::Arc;

/// Whether each byte that edits set gets its place among the cells of a task whose body loses no
/// blocks: its key lies in a data block among them, or in a hole of the body or among the blocks that
/// come of a twig whose pieces change, or it is a 0 in a hole of a twig that is only read; and whether
/// a twig whose pieces change has the first key of the blocks that come, if some do. The only error is
/// want of memory (docs/volume.md, "Bodies in extents").
pub fn bytes_have_places(
    alloc: Global,
    body: &SizedBody,
    edits: &Edits,
    reads: &[Arc<Cell>],
    cells: &[Arc<Cell>],
) -> Result<bool, Memory>
    requires asks { AreExtentEdits (Some body.now) (edits_of edits.now) }
    requires growing { (first : KeySeen) × IsGrowing body.now first }
    ensures exact { IfOk result (λ ok. ok ≡ have_places body.now (edits_of edits.now)
        (map (λ c. arc_value c) reads.now) (map (λ c. arc_value c) cells.now)) }
    ensures have { IfOk result (λ ok. ok ≡ true → HavePlaces body.now (edits_of edits.now)
        (map (λ c. arc_value c) reads.now) (map (λ c. arc_value c) cells.now)) }
{
    if !have_first(body, edits, cells) {
        return Ok(false);
    }
    let mut places = places_of(alloc, body, edits, cells)?;
    if !puts_lie(places.as_slice(), edits) {
        return Ok(false);
    }
    add_still(alloc, &mut places, body, reads)?;
    Ok(zeros_lie(places.as_slice(), edits.zeros.as_slice()))
}

// ---- the first of the blocks that come

// Whether no blocks come, or a twig whose pieces change has the first key of them.
fn have_first(body: &SizedBody, edits: &Edits, cells: &[Arc<Cell>]) -> bool
    requires { AreExtentEdits (Some body.now) (edits_of edits.now) }
    ensures { result ≡ have_first body.now (edits_of edits.now)
        (map (λ c. arc_value c) cells.now) }
{
    let coming = body.coming();
    !coming.from.is_below(coming.to) || some_has_first(body, edits, cells)
}

// Whether one of the cells is such a twig.
fn some_has_first(body: &SizedBody, edits: &Edits, cells: &[Arc<Cell>]) -> bool
    requires { AreExtentEdits (Some body.now) (edits_of edits.now) }
    ensures { result ≡ list_any (has_first body.now (edits_of edits.now))
        (map (λ c. arc_value c) cells.now) }
{
    for cell in cells {
        if has_first(body, edits, cell) {
            return true;
        }
    }
    false
}

// Whether a cell is such a twig.
fn has_first(body: &SizedBody, edits: &Edits, cell: &Cell) -> bool
    requires { AreExtentEdits (Some body.now) (edits_of edits.now) }
    ensures { result ≡ has_first body.now (edits_of edits.now) cell.now }
{
    is_turning(body, edits, cell) && has_key(cell, body.coming().from)
}

// Whether a cell is a twig whose pieces change.
fn is_turning(body: &SizedBody, edits: &Edits, cell: &Cell) -> bool
    requires { AreExtentEdits (Some body.now) (edits_of edits.now) }
    ensures { result ≡ is_turning body.now (edits_of edits.now) cell.now }
{
    cell.level() == 2 && changes_pieces(Some(body), edits, cell)
}

// Whether a cell's range has a key.
fn has_key(cell: &Cell, key: Key) -> bool
    ensures { result ≡ is_between (rank cell.now.lo) (rank cell.now.hi) (rank key) }
{
    !key.is_below(cell.lo()) && key.is_below(cell.hi())
}

// ---- the ranges

// The ranges of data blocks among some cells, and those of twigs whose pieces change.
fn places_of(
    alloc: Global,
    body: &SizedBody,
    edits: &Edits,
    cells: &[Arc<Cell>],
) -> Result<Vec<Interval>, Memory>
    requires { AreExtentEdits (Some body.now) (edits_of edits.now) }
    ensures { IfOk result (λ v. map interval_of v.items
        ≡ places body.now (edits_of edits.now) (map (λ c. arc_value c) cells.now)) }
{
    let mut places = Vec::new(alloc);
    for cell in cells {
        add_cell(alloc, &mut places, body, edits, cell)?;
    }
    Ok(places)
}

// Puts the range of a cell behind others, where it is a data block; where it is a twig whose pieces
// change, those of its holes and of the blocks that come.
fn add_cell(
    alloc: Global,
    places: &mut Vec<Interval>,
    body: &SizedBody,
    edits: &Edits,
    cell: &Cell,
) -> Result<(), Memory>
    requires { AreExtentEdits (Some body.now) (edits_of edits.now) }
    ensures { OnOk result (map interval_of places.new.items ≡ map interval_of places.old.items
        ++ cell_ranges body.now (edits_of edits.now) cell.now) }
{
    if cell.level() == 0 {
        places.push(Interval {
            from: cell.lo(),
            to: cell.hi(),
        })?;
        return Ok(());
    }
    if is_turning(body, edits, cell) {
        add_twig(alloc, places, body, cell)?;
    }
    Ok(())
}

// Puts the ranges of a twig's holes behind others, and that of the blocks that come into it.
fn add_twig(
    alloc: Global,
    places: &mut Vec<Interval>,
    body: &SizedBody,
    twig: &Cell,
) -> Result<(), Memory>
    requires level { twig.now.level ≡ 2 }
    requires sized { IsSizedBody body.now }
    ensures { OnOk result (map interval_of places.new.items ≡ map interval_of places.old.items
        ++ twig_ranges body.now twig.now) }
{
    let pieces = pieces_of_cell(alloc, twig)?;
    add_holes(places, body, pieces.as_slice())?;
    add_coming(places, body, twig)
}

// Puts the ranges of those pieces behind others that are holes of the body.
fn add_holes(
    places: &mut Vec<Interval>,
    body: &SizedBody,
    pieces: &[TwigPiece],
) -> Result<(), Memory>
    requires { IsSizedBody body.now }
    ensures { OnOk result (map interval_of places.new.items ≡ map interval_of places.old.items
        ++ flat_map (hole_range body.now) pieces.now) }
{
    for piece in pieces {
        add_hole(places, body, piece)?;
    }
    Ok(())
}

// Puts the range of a piece behind others, where it is a hole of the body that ends before the end
// of its object.
fn add_hole(places: &mut Vec<Interval>, body: &SizedBody, piece: &TwigPiece) -> Result<(), Memory>
    requires { IsSizedBody body.now }
    ensures { OnOk result (map interval_of places.new.items ≡ map interval_of places.old.items
        ++ hole_range body.now piece.now) }
{
    if !is_hole_of(body, piece) {
        return Ok(());
    }
    if let Some(to) = unit_end(piece) {
        places.push(Interval {
            from: piece.key,
            to,
        })?;
    }
    Ok(())
}

// Whether a piece is a hole of the body.
fn is_hole_of(body: &SizedBody, piece: &TwigPiece) -> bool
    requires { IsSizedBody body.now }
    ensures { result ≡ is_hole_of body.now piece.now }
{
    match piece.part {
        TwigPart::Pointer(_) => false,
        TwigPart::Blocks(unit) => unit.start == 0 && body.has(piece.key),
    }
}

// Puts the range of the blocks that come behind others, where a twig has the first key of them.
fn add_coming(places: &mut Vec<Interval>, body: &SizedBody, twig: &Cell) -> Result<(), Memory>
    requires { IsSizedBody body.now }
    ensures { OnOk result (map interval_of places.new.items ≡ map interval_of places.old.items
        ++ coming_range body.now twig.now) }
{
    let coming = body.coming();
    if has_key(twig, coming.from) {
        places.push(Interval {
            from: coming.from,
            to: coming.to,
        })?;
    }
    Ok(())
}

// ---- where a 0 stands already

// Puts the ranges of holes behind others that twigs have which are only read.
fn add_still(
    alloc: Global,
    places: &mut Vec<Interval>,
    body: &SizedBody,
    reads: &[Arc<Cell>],
) -> Result<(), Memory>
    requires { IsSizedBody body.now }
    ensures added { OnOk result (map interval_of places.new.items
        ≡ map interval_of places.old.items
        ++ still body.now (map (λ c. arc_value c) reads.now)) }
    ensures read { OnOk result (AreRead (map (λ c. arc_value c) reads.now)) }
{
    for cell in reads {
        add_still_of(alloc, places, body, cell)?;
    }
    Ok(())
}

// Puts the ranges of a cell's holes behind others, where it is a twig.
fn add_still_of(
    alloc: Global,
    places: &mut Vec<Interval>,
    body: &SizedBody,
    cell: &Cell,
) -> Result<(), Memory>
    requires { IsSizedBody body.now }
    ensures added { OnOk result (map interval_of places.new.items
        ≡ map interval_of places.old.items ++ still_ranges body.now cell.now) }
    ensures read { OnOk result (cell.now.level ≡ 2
        → ArePiecesOf cell.now (twig_pieces cell.now)) }
{
    if cell.level() != 2 {
        return Ok(());
    }
    let pieces = pieces_of_cell(alloc, cell)?;
    add_holes(places, body, pieces.as_slice())
}
