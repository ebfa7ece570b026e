//! Cells, read from blocks and made of them.

ghost use Rattle.std.specs.Prelude.{◌≡◌, ◌+◌, ◌^◌, ◌<◌, ◌≤◌, ◌==◌, ◌&&◌, if◌then◌else◌, drop, length, nat_lt, slice_get, true, false, None, Some, IfOk, OnOk};
ghost use Rattle.std.specs.Option.{option_or};
ghost use Rattle.std.specs.Arc.{arc_value};
ghost use Rattle.r4_base.specs.Cell.{cell_fault, items_in_fault, next_key, range_is_good};
ghost use Rattle.r4_base.specs.Key.{rank};
ghost use Rattle.r4_base.specs.Node.{items_of, level_of, node_fault};
ghost use Rattle.r4_node40.specs.View.{item_shown, view_block, view_items};
ghost use Rattle.r4_cell.specs.Ends.{EndsAt, RefusedAs, is_last_below};

use crate::body::last_key;
use crate::cell::Cell;
use crate::refused::CellRefused;
use r4_base::{Block, CellFault, Key, LEAF, Memory, NodeId};
use r4_node40::{ItemView, NodeView};
use std::alloc::Global;
use std::sync::Arc;

/// The level and the keys that a cell may have, and the number of blocks of its volume.
#[derive(Clone, Copy, Debug)]
pub struct Place {
    pub level: u8,
    pub lo: Key,
    pub hi: Key,
    pub blocks: u64,
}

/// The first fault of a block of 4096 bytes at a place; none at level 0, whatever its bytes are.
pub fn fault_of_block(b: &[u8], place: &Place) -> Option<CellFault>
    requires { length b.now ≡ 4096 }
    ensures { result ≡ cell_fault false place.now.blocks place.now.level (rank place.now.lo) (rank place.now.hi) b.now }
{
    if place.level == 0 {
        return None;
    }
    match NodeView::read(b) {
        Ok(node) => fault_of_node(&node, place),
        Err(fault) => Some(CellFault::Node(fault)),
    }
}

// The first fault of a node at a place: its level, and then its items.
fn fault_of_node(node: &NodeView<'_>, place: &Place) -> Option<CellFault>
    requires { length (view_block node.now).now ≡ 4096 }
    ensures { result ≡ option_or (if level_of (view_block node.now).now == place.now.level then None else Some CellFault.Level)
        (items_in_fault false place.now.blocks place.now.level (rank place.now.lo) (rank place.now.hi) 0 (view_items node.now)) }
{
    if node.level() != place.level {
        return Some(CellFault::Level);
    }
    fault_of_items(node, place)
}

// The first fault of the items of a node.
fn fault_of_items(node: &NodeView<'_>, place: &Place) -> Option<CellFault>
    requires { length (view_block node.now).now ≡ 4096 }
    ensures { result ≡ items_in_fault false place.now.blocks place.now.level (rank place.now.lo) (rank place.now.hi) 0 (view_items node.now) }
{
    for i in 0..node.len() {
        if let Some(fault) = fault_of_item(node, i, place) {
            return Some(fault);
        }
    }
    None
}

// The fault of item `i`: its body's, or that its key or its units lie out of range.
fn fault_of_item(node: &NodeView<'_>, i: u16, place: &Place) -> Option<CellFault>
    requires whole { length (view_block node.now).now ≡ 4096 }
    requires within { i < length (view_items node.now) }
    ensures { items_in_fault false place.now.blocks place.now.level (rank place.now.lo) (rank place.now.hi) i (drop i (view_items node.now))
        ≡ option_or result (items_in_fault false place.now.blocks place.now.level (rank place.now.lo) (rank place.now.hi) (i + 1) (drop (i + 1) (view_items node.now))) }
{
    let item = node.item(i);
    let next = node.key_behind(i, place.hi);
    match last_key(&item, place.blocks) {
        Ok(last) if is_in_range(&item, last, next, i, place) => None,
        Ok(_) => Some(CellFault::Range { item: i }),
        Err(fault) => Some(fault),
    }
}

// Whether an item's key and units lie within the place's keys and below the next item's; the first key of a node above
// leaf level is the place's first.
fn is_in_range(item: &ItemView<'_>, last: Option<Key>, next: Key, i: u16, place: &Place) -> bool
    requires { EndsAt (item_shown item.now) last }
    ensures { result ≡ range_is_good place.now.level (rank place.now.lo) (rank place.now.hi) (rank next) i (item_shown item.now) }
{
    let begins = !item.key.is_below(place.lo) && item.key.is_below(place.hi);
    let first = place.level <= LEAF || i != 0 || !place.lo.is_below(item.key);
    begins && first && ends_below(last, place.hi, next)
}

// Whether there is a last key, and it is below both.
fn ends_below(last: Option<Key>, hi: Key, next: Key) -> bool
    ensures { result ≡ is_last_below (rank hi) (rank next) last }
{
    match last {
        Some(key) => key.is_below(hi) && key.is_below(next),
        None => false,
    }
}

/// The cell that a block is, at a level and for the keys from `lo` up to but without `hi`, on a volume of `blocks` blocks.
/// The faults are looked for in the order of docs/volume.md, "Cells": `Node`, `Level`, and then for each item, rising, the
/// fault of its body and `Range`. A block of level 0 is taken whatever its bytes are. Nothing is copied.
pub fn read_cell(
    alloc: Global,
    id: NodeId,
    level: u8,
    lo: Key,
    hi: Key,
    blocks: u64,
    block: Block,
) -> Result<Arc<Cell>, CellRefused>
    ensures cell { IfOk result (λ c. arc_value c ≡ record { id = id.0; level = level; lo = lo; hi = hi; block = block }) }
    ensures sound { OnOk result (cell_fault false blocks level (rank lo) (rank hi) block ≡ None) }
    ensures fault { RefusedAs (cell_fault false blocks level (rank lo) (rank hi) block) result }
{
    let place = Place {
        level,
        lo,
        hi,
        blocks,
    };
    if let Some(fault) = fault_of_block(block.bytes(), &place) {
        return Err(CellRefused::Fault(fault));
    }
    match Arc::new(
        alloc,
        Cell {
            id,
            level,
            lo,
            hi,
            block,
        },
    ) {
        Ok(cell) => Ok(cell),
        Err(_) => Err(CellRefused::Memory),
    }
}

/// The cell that a block made in memory is: it may stand there at its level and range, as do the items of any cell. Nothing
/// is looked at.
pub fn new_cell(
    alloc: Global,
    id: NodeId,
    level: u8,
    lo: Key,
    hi: Key,
    block: Block,
) -> Result<Arc<Cell>, Memory>
    requires { cell_fault true (2 ^ 64) level (rank lo) (rank hi) block ≡ None }
    ensures { IfOk result (λ c. arc_value c ≡ record { id = id.0; level = level; lo = lo; hi = hi; block = block }) }
{
    match Arc::new(
        alloc,
        Cell {
            id,
            level,
            lo,
            hi,
            block,
        },
    ) {
        Ok(cell) => Ok(cell),
        Err(_) => Err(Memory),
    }
}
