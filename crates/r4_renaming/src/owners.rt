//! The nodes that an atom owns, under their new names.

ghost use Rattle.std.specs.Prelude.{◌≡◌, ◌<◌, ◌^◌, ◌&&◌, ◌++◌, ◌↔◌, ℕ, nat_eq, nat_le, map, filter, Contains, IfOk, OnOk, IsSome, if◌then◌else◌};
ghost use Rattle.std.specs.List.{IsDistinct};
ghost use Rattle.r4_atoms.specs.Atoms.{numbers, owner_of};
ghost use Rattle.r4_flush.specs.declared.cells.RenamedCell.{RenamedCell};
ghost use Rattle.r4_renaming.specs.Renaming.{owner_then};
ghost use Rattle.r4_renaming.specs.Steps.{OnlyOwnersChange, IsFreeNode, has_node, is_placed, new_nodes, owner_moved};

use crate::names::is_unplaced;
use r4_atoms::Atoms;
use r4_base::{Memory, NodeId};
use r4_flush::RenamedCell;
use r4_turns::Nodes;
use std::alloc::Global;

/// The nodes that an atom owns once its cells have their new names: those of the nodes that it owns which have a block,
/// and the new names of cells that had none.
pub(crate) fn read_nodes(
    alloc: Global,
    owned: &[NodeId],
    renamed: &[RenamedCell],
) -> Result<Nodes, Memory>
    ensures { IfOk result (λ nodes. nodes ≡ filter is_placed owned.now ++ new_nodes renamed.now) }
{
    let mut nodes = Vec::with_capacity(alloc, owned.len())?;
    add_placed(&mut nodes, owned)?;
    add_new(&mut nodes, renamed)?;
    Ok(Nodes::from_vec(nodes))
}

// Adds those of these nodes that have a block.
fn add_placed(nodes: &mut Vec<NodeId>, owned: &[NodeId]) -> Result<(), Memory>
    ensures { OnOk result (nodes.new.items ≡ nodes.old.items ++ filter is_placed owned.now) }
{
    for node in owned {
        if !is_unplaced(*node) {
            nodes.push(*node)?;
        }
    }
    Ok(())
}

// Adds the new names of those cells that had no block.
fn add_new(nodes: &mut Vec<NodeId>, renamed: &[RenamedCell]) -> Result<(), Memory>
    ensures { OnOk result (nodes.new.items ≡ nodes.old.items ++ new_nodes renamed.now) }
{
    for cell in renamed {
        if is_unplaced(cell.was) {
            nodes.push(cell.cell.id())?;
        }
    }
    Ok(())
}

/// An atom, which owns these nodes and these cells among them, owns the cells' new names in place of the old ones, and no
/// number of a new cell any more. No memory.
pub(crate) fn rename_owned(atoms: &mut Atoms, owned: &[NodeId], renamed: &[RenamedCell])
    ghost atom: { ℕ }
    requires some { (r : RenamedCell) × Contains renamed.now r }
    requires before { IsDistinct nat_eq (map (λ (r : RenamedCell). r.was.0) renamed.now) }
    requires own { (r : RenamedCell) → Contains renamed.now r
        → owner_of atoms.old r.was.0 ≡ Some atom }
    requires free { (r : RenamedCell) → Contains renamed.now r → IsFreeNode atoms.old r }
    requires owned { (i : ℕ) → Contains (numbers owned.now) i
        ↔ (owner_of atoms.old i ≡ Some atom) }
    ensures owners { (i : ℕ) → owner_of atoms.new i
        ≡ owner_then atom renamed.now i (owner_of atoms.old i) }
    ensures rest { OnlyOwnersChange atoms.old atoms.new }
{
    rename_nodes(atoms, renamed);
    drop_unplaced(atoms, owned, renamed[0].cell.id());
}

// The atom that owns these cells owns their new names in place of the old ones.
fn rename_nodes(atoms: &mut Atoms, renamed: &[RenamedCell])
    ghost atom: { ℕ }
    requires before { IsDistinct nat_eq (map (λ (r : RenamedCell). r.was.0) renamed.now) }
    requires own { (r : RenamedCell) → Contains renamed.now r
        → owner_of atoms.old r.was.0 ≡ Some atom }
    requires free { (r : RenamedCell) → Contains renamed.now r → IsFreeNode atoms.old r }
    ensures owners { (i : ℕ) → owner_of atoms.new i
        ≡ owner_moved atom renamed.now i (owner_of atoms.old i) }
    ensures rest { OnlyOwnersChange atoms.old atoms.new }
{
    for cell in renamed {
        atoms.rename(cell.was, cell.cell.id());
    }
}

// Nobody owns those of these nodes any more that have no block. `kept` is a node that is owned and has one.
fn drop_unplaced(atoms: &mut Atoms, nodes: &[NodeId], kept: NodeId)
    requires placed { kept.0 < 2 ^ 63 }
    requires owned { IsSome (owner_of atoms.old kept.0) }
    ensures owners { (i : ℕ) → owner_of atoms.new i
        ≡ if nat_le (2 ^ 63) i && has_node nodes.now i then None else owner_of atoms.old i }
    ensures rest { OnlyOwnersChange atoms.old atoms.new }
{
    for node in nodes {
        if is_unplaced(*node) {
            atoms.rename(*node, kept);
        }
    }
}
