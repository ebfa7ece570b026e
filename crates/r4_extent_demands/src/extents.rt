//! The ranges of a twig's extents (docs/volume.md, "Twigs").

ghost use Rattle.std.specs.Prelude.{◌≡◌, ◌+◌, ◌<◌, ◌≤◌, IfOk, OnOk, length, map};
ghost use Rattle.r4_base.specs.Node.{items_of};
ghost use Rattle.r4_bodies.specs.r4_cell.Seen.{node_of};
ghost use Rattle.r4_bodies.specs.r4_leaf_demands.Touching.{IsToldAt, span_of, spans_told};
ghost use Rattle.r4_graft.specs.r4_node40.View.{view_items};
ghost use Rattle.r4_extent_demands.specs.Putting.{AddsSpans};

use r4_base::{EXTENT, Memory};
use r4_bodies::{Cell, KeyRange};
use r4_graft::NodeView;
use std::alloc::Global;

/// The ranges of a twig's extents, in their order.
pub(crate) fn extents_of(alloc: Global, twig: &Cell) -> Result<Vec<KeyRange>, Memory>
    requires { 1 ≤ twig.now.level }
    ensures spans { IfOk result (λ v. map span_of v.items ≡ (node_of twig.now).spans) }
    ensures few { IfOk result (λ v. length v.items ≤ length (items_of twig.now.block)) }
    ensures short { IfOk result (λ v. length v.items < 65536) }
{
    let mut ranges = Vec::new(alloc);
    let node = twig.node();
    for i in 0..node.len() {
        add_extent(&mut ranges, twig, &node, i)?;
    }
    Ok(ranges)
}

// Puts the range of the item at a place behind the others, where it is an extent.
fn add_extent(
    ranges: &mut Vec<KeyRange>,
    twig: &Cell,
    node: &NodeView<'_>,
    place: u16,
) -> Result<(), Memory>
    requires items { view_items node.now ≡ items_of twig.now.block }
    requires within { place < length (view_items node.now) }
    ensures spans { OnOk result (AddsSpans twig.now place ranges.old.items ranges.new.items) }
    ensures few { OnOk result (length ranges.new.items ≤ length ranges.old.items + 1) }
{
    match extent_at(twig, node, place) {
        Some(range) => {
            ranges.push(range)?;
            Ok(())
        }
        None => Ok(()),
    }
}

/// The range of the item at a place, where it is an extent.
pub(crate) fn extent_at(twig: &Cell, node: &NodeView<'_>, place: u16) -> Option<KeyRange>
    requires items { view_items node.now ≡ items_of twig.now.block }
    requires within { place < length (view_items node.now) }
    ensures { IsToldAt twig.now place (spans_told result) }
{
    let item = node.item(place);
    (item.plugin == EXTENT).then_some(KeyRange {
        from: item.key,
        to: node.key_behind(place, twig.hi()),
    })
}
