//! A table of what may still come, from what may come of twigs (docs/volume.md, "What may still
//! come").

ghost use Rattle.std.specs.Prelude.{◌≡◌, ◌++◌, ◌∷◌, ◌-◌, ◌≤◌, [], map, All, IfOk, OnOk};
ghost use Rattle.std.specs.Arc.{arc_value};
ghost use Rattle.r4_allowed.specs.Making.{IsOfTwig, IsRaised, IsUpTo, entries_at, needed_by};
ghost use Rattle.r4_allowed.specs.Making.{told_of, twig_entry};
ghost use Rattle.r4_allowed.specs.Table.{budget_of};

use crate::bearing::{below, bytes_with, partings};
use crate::table::Allowance;
use r4_base::{Memory, NodeId, TWIG};
use r4_extent_put::{Cell, Root};
use std::alloc::{AllocError, Global};
use std::sync::Arc;

/// What may still come in the place of these cells, where so many may come of these twigs: of each
/// cell above the twigs, up to the root's level, the least number with which it suffices for what
/// comes below it. Of the entries of one cell the first counts. Whether it is what may come,
/// `is_allowed` says. The only error is want of memory, also where 2^64 or more come of a cell
/// (docs/volume.md, "What may still come").
pub fn allowances(
    alloc: Global,
    root: &Root,
    cells: &[Arc<Cell>],
    twigs: &[(NodeId, u64)],
) -> Result<Vec<Allowance>, Memory>
    ensures { IfOk result (λ table. IsRaised root.now.height (map (λ c. arc_value c) cells.now)
        (told_of twigs.now) (budget_of table.items)) }
{
    let mut table = of_twigs(alloc, twigs)?;
    raise(alloc, &mut table, cells, root.height)?;
    Ok(table)
}

// The entries of twigs.
fn of_twigs(alloc: Global, twigs: &[(NodeId, u64)]) -> Result<Vec<Allowance>, Memory>
    ensures { IfOk result (λ v. v.items ≡ map twig_entry twigs.now) }
{
    let mut table = Vec::new(alloc);
    for (id, most) in twigs {
        table.push(Allowance {
            level: TWIG,
            id: *id,
            most: *most,
        })?;
    }
    Ok(table)
}

// Puts entries of the cells above the twigs, up to a level, behind those of twigs, the lowest level
// first.
fn raise(
    alloc: Global,
    table: &mut Vec<Allowance>,
    cells: &[Arc<Cell>],
    top: u8,
) -> Result<(), Memory>
    requires { All IsOfTwig table.old.items }
    ensures raised { OnOk result (IsRaised top (map (λ c. arc_value c) cells.now)
        (budget_of table.old.items 2) (budget_of table.new.items)) }
    ensures levels { OnOk result (All (IsUpTo top) table.new.items) }
{
    if top <= TWIG {
        return Ok(());
    }
    raise(alloc, table, cells, top - 1)?;
    add_level(alloc, table, cells, top)
}

// Puts entries of the cells of a level above the twigs behind those of lower ones.
fn add_level(
    alloc: Global,
    table: &mut Vec<Allowance>,
    cells: &[Arc<Cell>],
    level: u8,
) -> Result<(), Memory>
    requires { 3 ≤ level }
    ensures { OnOk result (table.new.items ≡ table.old.items
        ++ entries_at (budget_of table.old.items (level - 1)) level
        (map (λ c. arc_value c) cells.now)) }
{
    let mut more = Vec::new(alloc);
    add_each(&mut more, table.as_slice(), cells, level)?;
    table.append(&mut more)?;
    Ok(())
}

// Puts entries of those of the cells that stand at a level behind others.
fn add_each(
    more: &mut Vec<Allowance>,
    table: &[Allowance],
    cells: &[Arc<Cell>],
    level: u8,
) -> Result<(), Memory>
    requires { 3 ≤ level }
    ensures { OnOk result (more.new.items ≡ more.old.items
        ++ entries_at (budget_of table.now (level - 1)) level (map (λ c. arc_value c) cells.now)) }
{
    match cells.split_first() {
        None => Ok(()),
        Some((first, rest)) => {
            add(more, table, first, level)?;
            add_each(more, table, rest, level)
        }
    }
}

// Puts the entry of a cell behind others, where it stands at a level.
fn add(more: &mut Vec<Allowance>, table: &[Allowance], cell: &Cell, level: u8) -> Result<(), Memory>
    requires { 3 ≤ level }
    ensures { OnOk result (more.new.items ≡ more.old.items
        ++ entries_at (budget_of table.now (level - 1)) level (cell.now ∷ [])) }
{
    if cell.level() != level {
        return Ok(());
    }
    let most = needed_by(table, cell)?;
    more.push(Allowance {
        level,
        id: cell.id(),
        most,
    })?;
    Ok(())
}

// How many cells come of a node at least, by what a table has for those below it.
fn needed_by(table: &[Allowance], node: &Cell) -> Result<u64, Memory>
    requires { 1 ≤ node.now.level }
    ensures { IfOk result (λ n. n ≡ needed_by (budget_of table.now (node.now.level - 1)) node.now) }
{
    let parts = partings(bytes_with(node, below(table, node)));
    if parts > u128::from(u64::MAX) {
        return Err(AllocError.into());
    }
    Ok(parts as u64)
}
