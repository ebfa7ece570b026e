//! The numbers from 2^63 on that cells name.

ghost use Rattle.std.specs.Prelude.{◌≡◌, ◌≤◌, ℕ, ◌^◌, [], ◌∷◌, ◌++◌, false, length, map, true};
ghost use Rattle.std.specs.Prelude.{All, IfOk, None, OnOk};
ghost use Rattle.std.specs.Arc.{arc_value};
ghost use Rattle.r4_base.specs.Cell.{block_names, item_names, names_in, pointer_names};
ghost use Rattle.r4_base.specs.Extents.{memory_fault, pointer_of, units_of};
ghost use Rattle.r4_cell.specs.Seen.{node_of};
ghost use Rattle.r4_node40.specs.View.{item_shown, view_block, view_items};
ghost use Rattle.r4_closed.specs.Closed.{MayBeNamed};
ghost use Rattle.r4_closed.specs.Named.{CellStands, ItemStands, ids_named, new_ids, new_of};

use r4_base::{EXTENT, Memory, POINTER, UNPLACED};
use r4_cell::Cell;
use r4_node40::{ItemView, NodeView};
use r4_twig::{ExtentView, pointer};
use std::sync::Arc;

/// Puts the new numbers that the cells name behind the others, and answers whether each of the cells may stand on 2^63
/// blocks. It ends at the first that may not.
pub(crate) fn add_of_cells(cells: &[Arc<Cell>], named: &mut Vec<u64>) -> Result<bool, Memory>
    ensures stand { IfOk result (λ b. b ≡ true → MayBeNamed (map (λ c. arc_value c) cells.now)) }
    ensures named { IfOk result (λ b. b ≡ true → named.new.items ≡ named.old.items
        ++ ids_named (map (λ c. arc_value c) cells.now)) }
    ensures refused { IfOk result (λ b. b ≡ false
        → MayBeNamed (map (λ c. arc_value c) cells.now) → ⊥) }
{
    for cell in cells {
        if !add_of_cell(cell, named)? {
            return Ok(false);
        }
    }
    Ok(true)
}

// The same of one cell; a data block names nothing.
fn add_of_cell(cell: &Cell, named: &mut Vec<u64>) -> Result<bool, Memory>
    ensures stands { IfOk result (λ b. b ≡ true → CellStands cell.now) }
    ensures named { IfOk result (λ b. b ≡ true → named.new.items ≡ named.old.items
        ++ new_ids (node_of cell.now).names) }
    ensures refused { IfOk result (λ b. b ≡ false → CellStands cell.now → ⊥) }
{
    if cell.level() == 0 {
        return Ok(true);
    }
    add_of_node(&cell.node(), named)
}

// The same of the items of a node.
fn add_of_node(node: &NodeView<'_>, named: &mut Vec<u64>) -> Result<bool, Memory>
    requires whole { length (view_block node.now).now ≡ 4096 }
    requires sound { All (ItemStands (2 ^ 64)) (view_items node.now) }
    ensures stand { IfOk result (λ b. b ≡ true → All (ItemStands (2 ^ 63)) (view_items node.now)) }
    ensures named { IfOk result (λ b. b ≡ true → (level hi : ℕ) → named.new.items
        ≡ named.old.items ++ new_ids (names_in level hi (view_items node.now))) }
    ensures refused { IfOk result (λ b. b ≡ false → All (ItemStands (2 ^ 63)) (view_items node.now)
        → ⊥) }
{
    for i in 0..node.len() {
        if !add_of_item(&node.item(i), named)? {
            return Ok(false);
        }
    }
    Ok(true)
}

// The same of one item.
fn add_of_item(item: &ItemView<'_>, named: &mut Vec<u64>) -> Result<bool, Memory>
    requires short { length item.now.body.now ≤ 4096 }
    requires sound { ItemStands (2 ^ 64) (item_shown item.now) }
    ensures stands { IfOk result (λ b. b ≡ true → ItemStands (2 ^ 63) (item_shown item.now)) }
    ensures named { IfOk result (λ b. b ≡ true → (level next : ℕ) → named.new.items
        ≡ named.old.items ++ new_ids (item_names level next (item_shown item.now))) }
    ensures refused { IfOk result (λ b. b ≡ false → ItemStands (2 ^ 63) (item_shown item.now) → ⊥) }
{
    match item.plugin {
        POINTER => {
            add_of_pointer(item.body, named)?;
            Ok(true)
        }
        EXTENT => add_of_extent(item.body, named),
        _ => Ok(true),
    }
}

// Puts the number that a pointer names behind the others where it is new.
fn add_of_pointer(body: &[u8], named: &mut Vec<u64>) -> Result<(), Memory>
    ensures { OnOk result ((level key next : ℕ) → named.new.items ≡ named.old.items
        ++ new_ids (pointer_names level key next (pointer_of body.now))) }
{
    match pointer(body) {
        Some(to) => add_if_new(to.0, named),
        None => Ok(()),
    }
}

// Puts the new blocks of an extent behind the others. It may not stand where a run goes past 2^63.
fn add_of_extent(body: &[u8], named: &mut Vec<u64>) -> Result<bool, Memory>
    requires { length body.now ≤ 4096 }
    ensures stands { IfOk result (λ b. b ≡ true → memory_fault (2 ^ 63) body.now ≡ None) }
    ensures named { IfOk result (λ b. b ≡ true → (key : ℕ) → named.new.items ≡ named.old.items
        ++ new_ids (block_names key (units_of body.now))) }
    ensures refused { IfOk result (λ b. b ≡ false → memory_fault (2 ^ 63) body.now ≡ None → ⊥) }
{
    let Ok(extent) = ExtentView::in_memory(body, UNPLACED) else {
        return Ok(false);
    };
    for i in 0..extent.len() {
        add_if_new(extent.unit(i).start, named)?;
    }
    Ok(true)
}

// Puts a number behind the others where it is that of a new cell.
fn add_if_new(number: u64, named: &mut Vec<u64>) -> Result<(), Memory>
    ensures { OnOk result (named.new.items ≡ named.old.items ++ new_of (number ∷ [])) }
{
    if number >= UNPLACED {
        named.push(number)?;
    }
    Ok(())
}
