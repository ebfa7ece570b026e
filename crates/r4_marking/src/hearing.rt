//! What a node hears of those that it names.

ghost use Rattle.std.specs.Prelude.{◌≡◌, ◌++◌, ◌≤◌, ◌<◌, [], length, map, IfOk, IfSome, IfNone, OnOk};
ghost use Rattle.r4_base.specs.Node.{items_of};
ghost use Rattle.r4_search.specs.r4_cell.Seen.{node_of};
ghost use Rattle.r4_marking.specs.Marks.{HearsAt, IsChildAt, NoChildAt, asks_seen, heard_by_id, heard_seen};
ghost use Rattle.r4_node40.specs.View.{view_items};
ghost use Rattle.r4_reach.specs.Demand.{heard_one};
ghost use Rattle.r4_search.specs.Place.{child_name};

use crate::demands::{Asking, Heard};
use r4_base::{BlockNo, LEAF, Memory, NodeId, POINTER};
use r4_node40::NodeView;
use r4_search::{Cell, Child};
use r4_twig::pointer;
use std::alloc::Global;
use std::collections::HashMap;

/// What the nodes ask for that a cell names, in the order of its names; data blocks ask for nothing.
pub(crate) fn heard_by(
    alloc: Global,
    cell: &Cell,
    asks: &HashMap<u64, Asking>,
) -> Result<Vec<Heard>, Memory>
    requires node { 1 ≤ cell.now.level }
    ensures { IfOk result (λ v. map heard_seen v.items
        ≡ heard_by_id (asks_seen asks.now.entries) (node_of cell.now).names) }
{
    let mut heard = Vec::new(alloc);
    let node = cell.node();
    if cell.level() == LEAF {
        return Ok(heard);
    }
    for i in 0..node.len() {
        hear_at(&mut heard, &node, cell, i, asks)?;
    }
    Ok(heard)
}

// What the node at a place asks for is put behind the others, if there is one.
fn hear_at(
    heard: &mut Vec<Heard>,
    node: &NodeView<'_>,
    cell: &Cell,
    place: u16,
    asks: &HashMap<u64, Asking>,
) -> Result<(), Memory>
    requires items { view_items node.now ≡ items_of cell.now.block }
    requires branch { 2 ≤ cell.now.level }
    requires within { place < length (view_items node.now) }
    ensures { OnOk result (HearsAt cell.now place (asks_seen asks.now.entries)
        (map heard_seen heard.old.items) (map heard_seen heard.new.items)) }
{
    match child_at(node, cell, place) {
        Some(child) => hear(heard, child, asks),
        None => Ok(()),
    }
}

// What a node asks for is put behind the others.
fn hear(heard: &mut Vec<Heard>, child: Child, asks: &HashMap<u64, Asking>) -> Result<(), Memory>
    ensures { OnOk result (map heard_seen heard.new.items ≡ map heard_seen heard.old.items
        ++ heard_one (child_name child) (asks_seen asks.now.entries child.id.0) []) }
{
    if let Some(ask) = asks.get(&child.id.0) {
        heard.push(Heard { child, ask: *ask })?;
    }
    Ok(())
}

/// The node that the pointer at a place of a node names; none where the item is an extent (docs/volume.md, "The tree").
pub fn child_at(node: &NodeView<'_>, cell: &Cell, place: u16) -> Option<Child>
    requires items { view_items node.now ≡ items_of cell.now.block }
    requires branch { 2 ≤ cell.now.level }
    requires within { place < length (view_items node.now) }
    ensures child { IfSome result (IsChildAt cell.now place) }
    ensures none { IfNone result (NoChildAt cell.now place) }
{
    let item = node.item(place);
    if item.plugin != POINTER {
        return None;
    }
    match pointer(item.body) {
        Some(BlockNo(to)) => Some(Child {
            id: NodeId(to),
            level: cell.level() - 1,
            lo: item.key,
            hi: node.key_behind(place, cell.hi()),
        }),
        None => None,
    }
}
