//! Which cells have keys that are changed or read (docs/volume.md, "Reach").

ghost use Rattle.std.specs.Prelude.{◌≡◌, ◌≤◌, ◌<◌, ◌↔◌, ◌++◌, [], length, map, true, false};
ghost use Rattle.std.specs.List.{flat_map};
ghost use Rattle.r4_base.specs.Key.{rank};
ghost use Rattle.r4_base.specs.Node.{items_of};
ghost use Rattle.r4_cell.specs.Seen.{node_of};
ghost use Rattle.r4_content.specs.Edited.{changed, put_keys};
ghost use Rattle.r4_content.specs.Held.{edits_of, fill_pairs, interval_of, pair_of, run_pairs};
ghost use Rattle.r4_leaf_demands.specs.Touching.{IsToldAt, IsTouched, IsTouchedAt, IsTouchedIn};
ghost use Rattle.r4_leaf_demands.specs.Touching.{MeetsKind, span_of, spans_told};
ghost use Rattle.r4_suited.specs.r4_leaf_edits.Suiting.{SuitLeaves};
ghost use Rattle.r4_node40.specs.View.{view_items};
ghost use Rattle.r4_marking.specs.r4_reach.Needs.{is_met};

use crate::bodies::{intervals_have, values_have};
use r4_base::{EXTENT, LEAF};
use r4_cell::Cell;
use r4_content::{Edits, Interval};
use r4_leaf::KeyRange;
use r4_node40::NodeView;
use r4_suited::{meets_fills, meets_intervals, meets_runs};

/// What is asked of the keys of an extent: whether one is changed that is no body's; or whether one is read, or is a
/// body's and changed.
#[derive(Clone, Copy, Debug, PartialEq, Eq)]
pub(crate) enum Way {
    Change,
    Read,
}

/// The range of a leaf or a data block. Neither has extents (docs/volume.md, "Cells").
pub fn low_range(cell: &Cell) -> KeyRange
    requires { cell.now.level ≤ 1 }
    ensures from { result.from ≡ cell.now.lo }
    ensures to { result.to ≡ cell.now.hi }
    ensures none { (node_of cell.now).spans ≡ [] }
{
    if cell.level() == LEAF {
        // A node of this level: its items are no extents.
        let _ = cell.node();
    }
    KeyRange {
        from: cell.lo(),
        to: cell.hi(),
    }
}

/// Whether an extent of a node has such a key.
pub(crate) fn extents_have(way: Way, edits: &Edits, reads: &[Interval], cell: &Cell) -> bool
    requires node { 1 ≤ cell.now.level }
    requires edits { SuitLeaves 16384 (edits_of edits.now) }
    ensures { (result ≡ true)
        ↔ IsTouchedIn way (edits_of edits.now) (map interval_of reads.now) cell.now }
{
    let node = cell.node();
    for i in 0..node.len() {
        if extent_has(way, edits, reads, cell, &node, i) {
            return true;
        }
    }
    false
}

// Whether the item at a place is an extent that has such a key.
fn extent_has(
    way: Way,
    edits: &Edits,
    reads: &[Interval],
    cell: &Cell,
    node: &NodeView<'_>,
    place: u16,
) -> bool
    requires items { view_items node.now ≡ items_of cell.now.block }
    requires within { place < length (view_items node.now) }
    requires edits { SuitLeaves 16384 (edits_of edits.now) }
    ensures { (result ≡ true) ↔ IsTouchedAt way (edits_of edits.now)
        (map interval_of reads.now) cell.now place }
{
    match extent_at(cell, node, place) {
        Some(range) => range_has(way, edits, reads, &range),
        None => false,
    }
}

// The range of the item at a place, where it is an extent.
fn extent_at(cell: &Cell, node: &NodeView<'_>, place: u16) -> Option<KeyRange>
    requires items { view_items node.now ≡ items_of cell.now.block }
    requires within { place < length (view_items node.now) }
    ensures { IsToldAt cell.now place (spans_told result) }
{
    let item = node.item(place);
    (item.plugin == EXTENT).then_some(KeyRange {
        from: item.key,
        to: node.key_behind(place, cell.hi()),
    })
}

// Whether a range has such a key.
fn range_has(way: Way, edits: &Edits, reads: &[Interval], range: &KeyRange) -> bool
    requires edits { SuitLeaves 16384 (edits_of edits.now) }
    ensures { (result ≡ true) ↔ IsTouched way (edits_of edits.now) (map interval_of reads.now)
        (span_of range.now) }
{
    match way {
        Way::Change => one_by_one(range, false, edits),
        Way::Read => meets_intervals(range, reads) || changes_body(range, edits),
    }
}

// Whether a body's key in a range is changed.
fn changes_body(range: &KeyRange, edits: &Edits) -> bool
    requires edits { SuitLeaves 16384 (edits_of edits.now) }
    ensures { (result ≡ true) ↔ MeetsKind true (changed (edits_of edits.now))
        (rank range.now.from) (rank range.now.to) }
{
    sets_bytes(range, edits) || one_by_one(range, true, edits)
}

// Whether a value or a cut has a key in a range that is a body's, or is none's.
fn one_by_one(range: &KeyRange, body: bool, edits: &Edits) -> bool
    ensures { (result ≡ true) ↔ MeetsKind body (put_keys (map pair_of edits.now.puts.items)
        ++ map interval_of edits.now.cuts.items) (rank range.now.from) (rank range.now.to) }
{
    values_have(range, body, edits.puts.as_slice())
        || intervals_have(range, body, edits.cuts.as_slice())
}

// Whether a key in a range gets a byte of zeros, of a fill or of a run.
fn sets_bytes(range: &KeyRange, edits: &Edits) -> bool
    ensures { result ≡ is_met (map interval_of edits.now.zeros.items
        ++ put_keys (flat_map fill_pairs edits.now.fills.items
        ++ flat_map run_pairs edits.now.runs.items)) (rank range.now.from) (rank range.now.to) }
{
    meets_intervals(range, edits.zeros.as_slice()) || sets_runs(range, edits)
}

// Whether a key in a range gets a byte of a fill or of a run.
fn sets_runs(range: &KeyRange, edits: &Edits) -> bool
    ensures { result ≡ is_met (put_keys (flat_map fill_pairs edits.now.fills.items
        ++ flat_map run_pairs edits.now.runs.items)) (rank range.now.from) (rank range.now.to) }
{
    meets_fills(range, edits.fills.as_slice()) || meets_runs(range, edits.runs.as_slice())
}
