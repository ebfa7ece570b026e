//! What is asked of the ranges of a twig's extents (docs/volume.md, "Reach").

ghost use Rattle.std.specs.Prelude.{◌≡◌, ◌↔◌, ◌≤◌, ◌<◌, ◌&&◌, None, Some, length, not, true};
ghost use Rattle.std.specs.List.{list_any};
ghost use Rattle.std.specs.Option.{option_copied};
ghost use Rattle.r4_base.specs.Key.{rank};
ghost use Rattle.r4_base.specs.Node.{items_of};
ghost use Rattle.r4_content.specs.Edited.{is_between};
ghost use Rattle.r4_content.specs.Held.{edits_of};
ghost use Rattle.r4_bodies.specs.r4_leaf_demands.Touching.{span_of};
ghost use Rattle.r4_graft.specs.r4_node40.View.{view_items};
ghost use Rattle.r4_bodies.specs.r4_leaf_edits.r4_reach.Reach.{is_body};
ghost use Rattle.r4_extent_demands.specs.Changing.{comes_in};
ghost use Rattle.r4_extent_demands.specs.Ranges.{Holds, HoldsAt, HoldsIn, MayAsk, puts_into};
ghost use Rattle.r4_extent_demands.specs.Sizes.{AreExtentEdits, IsSizedBody};

use crate::extents::extent_at;
use crate::gaining::puts_in as puts_in_range;
use crate::keys::is_of_body;
use crate::sized_body::SizedBody;
use r4_base::{Key, Value};
use r4_bodies::{Cell, KeyRange, has, intervals_have, meets_intervals};
use r4_content::{Edits, Interval};
use r4_graft::NodeView;

/// What is asked of the range of an extent (docs/volume.md, "Reach").
#[derive(Clone, Copy)]
pub enum Way<'a> {
    /// Whether blocks of the body come, and the first of them into the range.
    Comes(&'a SizedBody),
    /// Whether a value is put into the range that is no byte of a body in extents.
    Puts(Option<&'a SizedBody>, &'a Edits),
    /// Whether one of the intervals has a key there.
    Meets(&'a [Interval]),
    /// Whether one of the intervals has a key there that is a body's, or is none's.
    Kind(bool, &'a [Interval]),
}

/// Whether it holds of the range of one of a node's extents. No step is taken for a byte, nor for a block
/// (docs/volume.md, "Reach").
pub fn extents_have(way: Way<'_>, node: &Cell) -> bool
    requires node { 1 ≤ node.now.level }
    requires may { MayAsk way }
    ensures { (result ≡ true) ↔ HoldsIn way.entry node.now }
{
    let view = node.node();
    for i in 0..view.len() {
        if extent_has(way, node, &view, i) {
            return true;
        }
    }
    false
}

// Whether the item at a place is an extent of whose range it holds.
fn extent_has(way: Way<'_>, cell: &Cell, view: &NodeView<'_>, place: u16) -> bool
    requires items { view_items view.now ≡ items_of cell.now.block }
    requires within { place < length (view_items view.now) }
    requires may { MayAsk way }
    ensures { (result ≡ true) ↔ HoldsAt way.entry cell.now place }
{
    match extent_at(cell, view, place) {
        Some(range) => range_has(way, &range),
        None => false,
    }
}

// Whether it holds of a range.
fn range_has(way: Way<'_>, range: &KeyRange) -> bool
    requires { MayAsk way }
    ensures { (result ≡ true) ↔ Holds way.entry (span_of range.now) }
{
    match way {
        Way::Comes(body) => comes_in(body, range),
        Way::Puts(body, edits) => puts_in(body, edits, range),
        Way::Meets(intervals) => meets_intervals(range, intervals),
        Way::Kind(body, intervals) => intervals_have(range, body, intervals),
    }
}

// Whether blocks of a body come, and the first of them into a range.
fn comes_in(body: &SizedBody, range: &KeyRange) -> bool
    requires { IsSizedBody body.now }
    ensures { result ≡ comes_in body.now (span_of range.now) }
{
    let coming = body.coming();
    has(range, coming.from) && coming.from.is_below(coming.to)
}

// Whether a value is put into a range that is no byte of a body in extents.
fn puts_in(body: Option<&SizedBody>, edits: &Edits, range: &KeyRange) -> bool
    requires { AreExtentEdits (option_copied body) (edits_of edits.now) }
    ensures { result
        ≡ puts_into (option_copied body.entry) (edits_of edits.now) (span_of range.now) }
{
    match body {
        Some(body) => puts_beside(body, edits, range),
        None => puts_some(edits, range),
    }
}

// Whether a value is put into a range that is no byte of this body, where that stands in extents afterwards.
fn puts_beside(body: &SizedBody, edits: &Edits, range: &KeyRange) -> bool
    requires { AreExtentEdits (Some body.now) (edits_of edits.now) }
    ensures { result ≡ puts_into (Some body.now) (edits_of edits.now) (span_of range.now) }
{
    if body.is_spread() {
        return puts_others(edits.puts.as_slice(), range);
    }
    puts_some(edits, range)
}

// Whether a key in a range gets a value.
fn puts_some(edits: &Edits, range: &KeyRange) -> bool
    ensures { result ≡ puts_into None (edits_of edits.now) (span_of range.now) }
{
    meets_intervals(range, edits.zeros.as_slice()) || puts_in_range(range, edits)
}

// Whether one of the values has its key in a range, and that is no body's.
fn puts_others(values: &[(Key, Value)], range: &KeyRange) -> bool
    ensures { result ≡ list_any
        (λ p. is_between (rank range.now.from) (rank range.now.to) (rank p.0)
        && not (is_body (rank p.0))) values.now }
{
    match values.split_first() {
        None => false,
        Some((first, rest)) => puts_other(first.0, range) || puts_others(rest, range),
    }
}

// Whether a key lies in a range, and is no body's.
fn puts_other(key: Key, range: &KeyRange) -> bool
    ensures { result ≡ (is_between (rank range.now.from) (rank range.now.to) (rank key)
        && not (is_body (rank key))) }
{
    has(range, key) && !is_of_body(key)
}
