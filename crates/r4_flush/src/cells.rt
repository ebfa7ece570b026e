//! Cells under the names of their blocks (docs/durable.md, "From an open atom to its plan").

ghost use Rattle.std.specs.Prelude.{◌≡◌, ◌≢◌, ◌<◌, ◌^◌, length, map, false, true, None, IfOk};
ghost use Rattle.std.specs.Arc.{arc_value};
ghost use Rattle.std.specs.Ordering.{nat_cmp};
ghost use Rattle.std.specs.BTreeMap.{get};
ghost use Rattle.r4_base.specs.Cell.{cell_fault};
ghost use Rattle.r4_base.specs.Key.{rank};
ghost use Rattle.r4_base.specs.Node.{count_of, items_of, node_fault};
ghost use Rattle.r4_node40.specs.Loan.{bytes_of, with_bytes};
ghost use Rattle.r4_node40.specs.Laid.{IsLaid};
ghost use Rattle.r4_node40.specs.View.{view_block, view_items};
ghost use Rattle.r4_flush.specs.Anew.{AreItemsAnew, AreMade, BecomeBlocks, IsBlockAnew};
ghost use Rattle.r4_flush.specs.Anew.{IsCellAnew, IsWrittenAnew};
ghost use Rattle.r4_flush.specs.Anew.{new_name};
ghost use Rattle.r4_flush.specs.Prepared.{WasCell};

use crate::bodies::{names_other, rename_body};
use crate::names::{Names, new_name};
use r4_base::{Block, Memory, NodeId};
use r4_cell::{Cell, new_cell};
use r4_node40::{NodeMut, NodeView};
use std::alloc::Global;
use std::sync::Arc;

/// A cell under the name of its block, and the name that it had.
#[derive(Drop)]
pub struct RenamedCell {
    pub was: NodeId,
    pub cell: Arc<Cell>,
}

/// The cells, each under its new name, in their order.
pub(crate) fn rename_cells(
    alloc: Global,
    cells: &[Arc<Cell>],
    names: &Names,
) -> Result<Vec<RenamedCell>, Memory>
    requires { BecomeBlocks (new_name (get nat_cmp names.now)) }
    ensures { IfOk result (λ v. AreMade (WasCell (new_name (get nat_cmp names.now))) (map
        (λ c. arc_value c) cells.now) v.items) }
{
    let mut renamed = Vec::with_capacity(alloc, cells.len())?;
    for cell in cells {
        let was = cell.id();
        let cell = rename_cell(alloc, cell, names)?;
        renamed.push(RenamedCell { was, cell })?;
    }
    Ok(renamed)
}

// A cell under its new name, which is shared where neither it nor one that it names gets another name.
fn rename_cell(alloc: Global, cell: &Arc<Cell>, names: &Names) -> Result<Arc<Cell>, Memory>
    requires { BecomeBlocks (new_name (get nat_cmp names.now)) }
    ensures { IfOk result (λ c. IsCellAnew (new_name (get nat_cmp names.now))
        (arc_value cell.now) (arc_value c)) }
{
    let id = new_name(names, cell.id().0);
    if id == cell.id().0 && !has_other_names(cell, names) {
        return Ok(Arc::try_clone(cell)?);
    }
    let block = rename_block(alloc, cell, names)?;
    new_cell(alloc, NodeId(id), cell.level(), cell.lo(), cell.hi(), block)
}

// Whether a cell names one that gets another name.
fn has_other_names(cell: &Cell, names: &Names) -> bool
    ensures { result ≡ false → cell.now.level ≢ 0
        → AreItemsAnew (new_name (get nat_cmp names.now)) (items_of cell.now.block)
        (items_of cell.now.block) }
{
    cell.level() != 0 && names_others(&cell.node(), names)
}

// Whether some item of a node names one that gets another name.
fn names_others(node: &NodeView<'_>, names: &Names) -> bool
    requires { length (view_block node.now).now ≡ 4096 }
    ensures { result ≡ false → AreItemsAnew (new_name (get nat_cmp names.now))
        (view_items node.now) (view_items node.now) }
{
    for i in 0..node.len() {
        if names_other(&node.item(i), names) {
            return true;
        }
    }
    false
}

// A copy of a cell's block, under the new names.
fn rename_block(alloc: Global, cell: &Cell, names: &Names) -> Result<Block, Memory>
    requires { BecomeBlocks (new_name (get nat_cmp names.now)) }
    ensures bytes { IfOk result (λ b. cell.now.level ≡ 0 → b ≡ cell.now.block) }
    ensures node { IfOk result (λ b. cell.now.level ≢ 0
        → IsBlockAnew (new_name (get nat_cmp names.now)) cell.now.block b) }
    ensures stands { IfOk result (λ b. cell_fault true (2 ^ 64) cell.now.level
        (rank cell.now.lo) (rank cell.now.hi) b ≡ None) }
{
    let mut block = cell.block().copy(alloc)?;
    if cell.level() != 0 {
        rename_items(&mut block, cell.node().len(), names);
    }
    Ok(block)
}

// Writes the new names into the items of a block that is a node and has `count` of them.
fn rename_items(block: &mut Block, count: u16, names: &Names)
    requires names { BecomeBlocks (new_name (get nat_cmp names.now)) }
    requires node { node_fault block.old ≡ None }
    requires counted { count ≡ length (items_of block.old) }
    ensures anew { IsBlockAnew (new_name (get nat_cmp names.now)) block.old block.new }
    ensures again { node_fault block.new ≡ None }
{
    let Ok(mut node) = NodeMut::read(block) else {
        unreachable!()
    };
    rename_each(&mut node, count, names);
}

// Writes the new names into the items of a node, which has `count` of them.
fn rename_each(node: &mut NodeMut<'_>, count: u16, names: &Names)
    requires names { BecomeBlocks (new_name (get nat_cmp names.now)) }
    requires whole { length (bytes_of node.old) ≡ 4096 }
    requires node { node_fault (bytes_of node.old) ≡ None }
    requires counted { count ≡ length (items_of (bytes_of node.old)) }
    ensures block { node.new ≡ with_bytes node.old (bytes_of node.new) }
    ensures anew { IsBlockAnew (new_name (get nat_cmp names.now)) (bytes_of node.old)
        (bytes_of node.new) }
    ensures again { node_fault (bytes_of node.new) ≡ None }
{
    for i in 0..count {
        rename_item(node, i, names);
    }
}

// Writes the new names into item `i` of a node.
fn rename_item(node: &mut NodeMut<'_>, i: u16, names: &Names)
    requires names { BecomeBlocks (new_name (get nat_cmp names.now)) }
    requires laid { IsLaid (bytes_of node.old) }
    requires within { i < count_of (bytes_of node.old) }
    ensures block { node.new ≡ with_bytes node.old (bytes_of node.new) }
    ensures written { IsWrittenAnew (new_name (get nat_cmp names.now)) (bytes_of node.old) i
        (bytes_of node.new) }
{
    let plugin = node.view().item(i).plugin;
    rename_body(plugin, node.body_mut(i), names);
}
