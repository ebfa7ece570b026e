//! Whether the pieces of a twig change (docs/volume.md, "Reach").

ghost use Rattle.std.specs.Prelude.{◌≡◌, ◌+◌, ◌*◌, ◌^◌, ◌≤◌, nat_lt};
ghost use Rattle.std.specs.List.{list_any};
ghost use Rattle.std.specs.Option.{option_copied};
ghost use Rattle.r4_base.specs.Extents.{units_of};
ghost use Rattle.r4_base.specs.Key.{offset_of, rank};
ghost use Rattle.r4_base.specs.Node.{items_of};
ghost use Rattle.r4_graft.specs.r4_branch.Items.{IsSoundItem};
ghost use Rattle.r4_graft.specs.r4_branch.Pieces.{item_pieces, pieces_in, unit_pieces};
ghost use Rattle.r4_graft.specs.r4_branch.declared.piece.TwigPart.TheVariants.{Blocks};
ghost use Rattle.r4_bodies.specs.r4_cell.Seen.{node_of};
ghost use Rattle.r4_content.specs.Held.{edits_of};
ghost use Rattle.r4_graft.specs.r4_node40.View.{item_shown};
ghost use Rattle.r4_bodies.specs.r4_leaf_edits.r4_reach.Needs.{changes_pieces, put_among};
ghost use Rattle.r4_extent_demands.specs.Changing.{changes_units, comes_in, goes_from, is_changed};
ghost use Rattle.r4_extent_demands.specs.Changing.{is_refilled};
ghost use Rattle.r4_extent_demands.specs.Pieces.{HasRoom};
ghost use Rattle.r4_extent_demands.specs.Sizes.{AreExtentEdits, IsSized, IsSizedBody};

use crate::gaining;
use crate::parting::blocks_before;
use crate::piecing::hole_of;
use crate::ranges::{Way, extents_have};
use crate::sized_body::SizedBody;
use r4_base::{BLOCK_BYTES, EXTENT, Key, Unit};
use r4_bodies::{Cell, KeyRange};
use r4_content::Edits;
use r4_graft::{ItemView, TwigPart, TwigPiece};
use r4_twig::ExtentView;

/// Whether an extent's unit comes to a twig or goes, or is replaced, or another value comes among its extents: then the
/// twig is packed anew. No step is taken for a byte, nor for a block (docs/volume.md, "Reach").
pub fn changes_pieces(body: Option<&SizedBody>, edits: &Edits, twig: &Cell) -> bool
    requires twig { twig.now.level ≡ 2 }
    requires edits { AreExtentEdits (option_copied body) (edits_of edits.now) }
    ensures { result
        ≡ changes_pieces (option_copied body.entry) (edits_of edits.now) (node_of twig.now) }
{
    puts_among(body, edits, twig) || changes_some(body, edits, twig)
}

// Whether a value that is no byte of a body in extents is put among a twig's extents.
fn puts_among(body: Option<&SizedBody>, edits: &Edits, twig: &Cell) -> bool
    requires twig { twig.now.level ≡ 2 }
    requires edits { AreExtentEdits (option_copied body) (edits_of edits.now) }
    ensures { result ≡ nat_lt 0
        (put_among (option_copied body.entry) (edits_of edits.now) (node_of twig.now)) }
{
    extents_have(Way::Puts(body, edits), twig)
}

/// Whether a unit of the body comes to a twig or goes, or is replaced, if there is a body.
pub fn changes_some(body: Option<&SizedBody>, edits: &Edits, twig: &Cell) -> bool
    requires twig { twig.now.level ≡ 2 }
    requires sized { IsSized (option_copied body) }
    ensures { result
        ≡ changes_units (option_copied body.entry) (edits_of edits.now) (node_of twig.now) }
{
    match body {
        Some(body) => comes_among(body, twig) || changes_each(body, edits, twig),
        None => false,
    }
}

// Whether blocks come, and the first of them into the range of one of a twig's extents.
fn comes_among(body: &SizedBody, twig: &Cell) -> bool
    requires twig { twig.now.level ≡ 2 }
    requires sized { IsSizedBody body.now }
    ensures { result ≡ list_any (comes_in body.now) (node_of twig.now).spans }
{
    extents_have(Way::Comes(body), twig)
}

// Whether one of a twig's pieces changes.
fn changes_each(body: &SizedBody, edits: &Edits, twig: &Cell) -> bool
    requires twig { twig.now.level ≡ 2 }
    requires sized { IsSizedBody body.now }
    ensures { result ≡ list_any (is_changed body.now (edits_of edits.now))
        (pieces_in (items_of (node_of twig.now).block)) }
{
    let node = twig.node();
    for i in 0..node.len() {
        if changes_item(body, edits, &node.item(i)) {
            return true;
        }
    }
    false
}

// Whether one of the pieces of an item changes.
fn changes_item(body: &SizedBody, edits: &Edits, item: &ItemView<'_>) -> bool
    requires sized { IsSizedBody body.now }
    requires sound { IsSoundItem (item_shown item.now) }
    ensures { result ≡ list_any (is_changed body.now (edits_of edits.now))
        (item_pieces (item_shown item.now)) }
{
    item.plugin == EXTENT && changes_extent(body, edits, item.key, item.body)
}

// Whether one of the units of an extent changes.
fn changes_extent(body: &SizedBody, edits: &Edits, key: Key, units: &[u8]) -> bool
    requires sized { IsSizedBody body.now }
    requires sound { IsSoundItem (record { key = key; plugin = 5; body = units.now }) }
    ensures { result ≡ list_any (is_changed body.now (edits_of edits.now))
        (unit_pieces key 0 (units_of units.now)) }
{
    let extent = ExtentView::of_item(units);
    let mut blocks = 0;
    for i in 0..extent.len() {
        let unit = extent.unit(i);
        if changes_unit(body, edits, key.behind(BLOCK_BYTES * blocks), unit) {
            return true;
        }
        blocks += unit.width;
    }
    false
}

// Whether a unit at a key changes: its blocks go, or it is a hole of which a block gets bytes.
fn changes_unit(body: &SizedBody, edits: &Edits, key: Key, unit: Unit) -> bool
    requires sized { IsSizedBody body.now }
    requires room { HasRoom (record { key = key; part = Blocks unit }) }
    ensures { result ≡ is_changed body.now (edits_of edits.now)
        (record { key = key; part = Blocks unit }) }
{
    let piece = TwigPiece {
        key,
        part: TwigPart::Blocks(unit),
    };
    goes(&body.going(), &piece) || refills(body, edits, &piece)
}

// Whether blocks of a piece go.
fn goes(going: &KeyRange, piece: &TwigPiece) -> bool
    requires { HasRoom piece.now }
    ensures { result ≡ goes_from (rank going.now.from, rank going.now.to) piece.now }
{
    let TwigPart::Blocks(unit) = piece.part else {
        return false;
    };
    let low = if piece.key.is_below(going.from) {
        going.from
    } else {
        piece.key
    };
    low.is_below(going.to) && is_before_end(&piece.key, unit.width, &low)
}

// Whether a key, which is not below another one, is one of so many blocks from that on.
fn is_before_end(key: &Key, width: u64, low: &Key) -> bool
    requires order { rank key.now ≤ rank low.now }
    requires fits { offset_of key.now + 4096 * width ≤ 2 ^ 64 }
    ensures { result ≡ nat_lt (rank low.now) (rank key.now + 4096 * width) }
{
    width > 0 && low.is_same(*key) || blocks_before(key, width, low).is_some()
}

// Whether a piece is a hole of which a block gets bytes.
fn refills(body: &SizedBody, edits: &Edits, piece: &TwigPiece) -> bool
    requires sized { IsSizedBody body.now }
    requires room { HasRoom piece.now }
    ensures { result ≡ is_refilled body.now (edits_of edits.now) piece.now }
{
    match hole_of(body, piece) {
        None => false,
        Some(width) => gaining::blocks_before(body, edits, piece.key, width) < width,
    }
}
