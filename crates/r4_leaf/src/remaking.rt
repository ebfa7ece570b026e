//! A leaf of which several runs of units go and to which several items come (docs/volume.md, "Leaves").

ghost use Rattle.std.specs.Prelude.{◌≡◌, ◌-◌, ◌^◌, ◌<◌, ◌≤◌, ℕ, min, IfOk, OnOk};
ghost use Rattle.r4_base.specs.Cell.{item_end, item_units, units_in};
ghost use Rattle.r4_base.specs.Key.{rank};
ghost use Rattle.r4_node40.specs.View.{view_items};
ghost use Rattle.r4_leaf.specs.Items.{IsSoundItem, Lie};
ghost use Rattle.r4_leaf.specs.Leaves.{AreApart, AreFew, HaveMkfsId, MayBePut, Packs};
ghost use Rattle.r4_leaf.specs.Pieces.{Adds, Follow, units_of};
ghost use Rattle.r4_leaf.specs.Remade.{AddsItem, AreWithin, CanPutAll, cut_all, filled_tail, item_of, put_all, units_after};
ghost use Rattle.r4_leaf.specs.Units.{leaf_bytes, put_units};

use crate::cutting::cut_pieces;
use crate::leaf::Leaf;
use crate::measuring::bytes_of;
use crate::merging::put_pieces;
use crate::packing::pack;
use crate::piece::Piece;
use crate::reading::{add_item, pieces_of};
use crate::run::Run;
use r4_base::{Key, Memory};
use r4_node40::NodeView;
use std::alloc::Global;

/// The keys from one on and below another.
#[derive(Clone, Copy, Debug, PartialEq, Eq)]
pub struct KeyRange {
    pub from: Key,
    pub to: Key,
}

/// What is put into a leaf: an item of stat data (plugin 0), of entries of a directory (2) or of bytes of a tail (6), with
/// a body that is lent, of any length; or so many bytes of a tail that all have one value, of which none is held.
#[derive(Drop)]
pub enum Given<'a> {
    Item {
        key: Key,
        plugin: u16,
        body: &'a [u8],
    },
    Fill {
        key: Key,
        count: u16,
        byte: u8,
    },
}

/// The leaves that a leaf becomes without the units of some ranges of keys, and then with some items, for the range of the
/// leaf, which begins at `lo`. The leaf is taken apart once. A leaf is filled before the next one is begun. All have the
/// given mkfs_id (docs/volume.md, "Leaves").
pub fn remake<'a>(
    alloc: Global,
    leaf: &NodeView<'a>,
    lo: Key,
    mkfs_id: u32,
    cuts: &[KeyRange],
    items: &[Given<'a>],
) -> Result<Vec<Leaf>, Memory>
    requires leaf { (hi : ℕ) × (Lie (rank lo) hi (view_items leaf.now)
        × AreWithin (rank lo) hi items.now) }
    requires can { CanPutAll items.now (cut_all cuts.now (units_in (view_items leaf.now))) }
    ensures packs { IfOk result (λ v. (hi : ℕ) → Lie (rank lo) hi (view_items leaf.now)
        → AreWithin (rank lo) hi items.now
        → Packs (rank lo) hi (units_after cuts.now items.now (view_items leaf.now)) v.items) }
    ensures few { IfOk result (λ v. (hi : ℕ) → Lie (rank lo) hi (view_items leaf.now)
        → AreWithin (rank lo) hi items.now
        → leaf_bytes (units_after cuts.now items.now (view_items leaf.now)) < 58912
        → AreFew (units_after cuts.now items.now (view_items leaf.now)) v.items) }
    ensures mkfs_id { IfOk result (λ v. HaveMkfsId mkfs_id v.items) }
{
    let mut pieces = pieces_after(alloc, leaf, lo, cuts, items)?;
    pieces.reverse();
    pack(alloc, lo, mkfs_id, pieces)
}

/// How many bytes the units take up that a leaf is to have after these edits, headers and all: the number by which `remake`
/// needs one leaf or more (docs/volume.md, "Leaves"). It is at most 2^64 - 1, and no leaf is made.
pub fn bytes_after<'a>(
    alloc: Global,
    leaf: &NodeView<'a>,
    lo: Key,
    cuts: &[KeyRange],
    items: &[Given<'a>],
) -> Result<u64, Memory>
    requires leaf { (hi : ℕ) × (Lie (rank lo) hi (view_items leaf.now)
        × AreWithin (rank lo) hi items.now) }
    requires can { CanPutAll items.now (cut_all cuts.now (units_in (view_items leaf.now))) }
    ensures { IfOk result (λ n. n
        ≡ min (leaf_bytes (units_after cuts.now items.now (view_items leaf.now))) (2 ^ 64 - 1)) }
{
    let pieces = pieces_after(alloc, leaf, lo, cuts, items)?;
    Ok(bytes_of(&pieces))
}

// The pieces that a leaf is to have, of which it is measured and packed.
fn pieces_after<'a>(
    alloc: Global,
    leaf: &NodeView<'a>,
    lo: Key,
    cuts: &[KeyRange],
    items: &[Given<'a>],
) -> Result<Vec<Piece<'a>>, Memory>
    requires leaf { (hi : ℕ) × (Lie (rank lo) hi (view_items leaf.now)
        × AreWithin (rank lo) hi items.now) }
    requires can { CanPutAll items.now (cut_all cuts.now (units_in (view_items leaf.now))) }
    ensures units { IfOk result (λ v.
        units_of v.items ≡ units_after cuts.now items.now (view_items leaf.now)) }
    ensures follow { IfOk result (λ v. (hi : ℕ) → Lie (rank lo) hi (view_items leaf.now)
        → AreWithin (rank lo) hi items.now → Follow (rank lo) hi v.items) }
{
    let _ = lo;
    let pieces = pieces_of(alloc, leaf)?;
    let left = cut_each(alloc, pieces, cuts)?;
    put_each(alloc, left, items)
}

/// The pieces without the units of each of these ranges.
fn cut_each<'a>(
    alloc: Global,
    pieces: Vec<Piece<'a>>,
    cuts: &[KeyRange],
) -> Result<Vec<Piece<'a>>, Memory>
    requires { (lo : ℕ) × (hi : ℕ) × Follow lo hi pieces.items }
    ensures units { IfOk result (λ v. units_of v.items ≡ cut_all cuts.now (units_of pieces.entry.items)) }
    ensures follow { IfOk result (λ v. (lo hi : ℕ) → Follow lo hi pieces.entry.items → Follow lo hi v.items) }
{
    match cuts.split_first() {
        None => Ok(pieces),
        Some((cut, rest)) => {
            let mut left = cut_pieces(alloc, pieces, &cut.from, &cut.to)?;
            left.reverse();
            cut_each(alloc, left, rest)
        }
    }
}

/// The pieces with those of each of these items.
fn put_each<'a>(
    alloc: Global,
    pieces: Vec<Piece<'a>>,
    items: &[Given<'a>],
) -> Result<Vec<Piece<'a>>, Memory>
    requires pieces { (lo : ℕ) × (hi : ℕ) × (Follow lo hi pieces.items × AreWithin lo hi items.now) }
    requires can { CanPutAll items.now (units_of pieces.items) }
    ensures units { IfOk result (λ v. units_of v.items ≡ put_all items.now (units_of pieces.entry.items)) }
    ensures follow { IfOk result (λ v. (lo hi : ℕ) → Follow lo hi pieces.entry.items → AreWithin lo hi items.now → Follow lo hi v.items) }
{
    match items.split_first() {
        None => Ok(pieces),
        Some((item, rest)) => {
            let all = with_one(alloc, pieces, item)?;
            put_each(alloc, all, rest)
        }
    }
}

/// The pieces with those of an item.
fn with_one<'a>(
    alloc: Global,
    pieces: Vec<Piece<'a>>,
    item: &Given<'a>,
) -> Result<Vec<Piece<'a>>, Memory>
    requires pieces { (lo : ℕ) × (hi : ℕ) × Follow lo hi pieces.items }
    requires given { MayBePut (item_of item.now) }
    requires apart { AreApart (units_of pieces.items) (item_units (item_of item.now)) }
    ensures units { IfOk result (λ v. units_of v.items ≡ put_units (item_units (item_of item.now)) (units_of pieces.entry.items)) }
    ensures follow { IfOk result (λ v. (lo hi : ℕ) → Follow lo hi pieces.entry.items → lo ≤ rank (item_of item.now).key → item_end (item_of item.now) ≤ hi
        → Follow lo hi v.items) }
{
    let mut given = Vec::new(alloc);
    add_given(&mut given, item)?;
    let mut all = put_pieces(alloc, pieces, given)?;
    all.reverse();
    Ok(all)
}

// Puts the pieces of what is given behind the others.
fn add_given<'a>(pieces: &mut Vec<Piece<'a>>, given: &Given<'a>) -> Result<(), Memory>
    requires { MayBePut (item_of given.now) }
    ensures { OnOk result (AddsItem pieces.old.items (item_of given.now) pieces.new.items) }
{
    match given {
        Given::Item { key, plugin, body } => add_lent(pieces, *key, *plugin, body),
        Given::Fill { key, count, byte } => add_fill(pieces, *key, *count, *byte),
    }
}

// Puts the pieces of an item behind the others.
fn add_lent<'a>(
    pieces: &mut Vec<Piece<'a>>,
    key: Key,
    plugin: u16,
    body: &'a [u8],
) -> Result<(), Memory>
    requires { MayBePut (record { key = key; plugin = plugin; body = body.now }) }
    ensures { OnOk result (AddsItem pieces.old.items
        (record { key = key; plugin = plugin; body = body.now }) pieces.new.items) }
{
    add_item(pieces, key, plugin, body)
}

// Puts so many bytes of a tail that have one value behind the other pieces.
fn add_fill(pieces: &mut Vec<Piece<'_>>, key: Key, count: u16, byte: u8) -> Result<(), Memory>
    requires { MayBePut (filled_tail key count byte) }
    ensures { OnOk result (AddsItem pieces.old.items (filled_tail key count byte) pieces.new.items) }
{
    let run = Run::same(usize::from(count), byte);
    pieces.push(Piece::Bytes(key, run))?;
    Ok(())
}
