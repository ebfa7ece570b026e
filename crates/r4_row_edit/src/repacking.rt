//! Nodes above the twigs beside each other that are packed anew (docs/volume.md, "Edits").

ghost use Rattle.std.specs.Prelude.{◌≡◌, ◌+◌, ◌≤◌, ◌<◌, ◌++◌, ◌^◌, ◌-◌, ℕ, length, map, take, Contains};
ghost use Rattle.std.specs.Prelude.{IfOk, OnOk};
ghost use Rattle.std.specs.Arc.{arc_value};
ghost use Rattle.r4_cell.specs.Seen.{CellSeen};
ghost use Rattle.r4_cell.specs.declared.change.Fresh.{Fresh as FreshSeen};
ghost use Rattle.r4_patch.specs.Joining.{ids_of};
ghost use Rattle.r4_path.specs.Sharing.{IsSound};
ghost use Rattle.r4_path.specs.Steps.{CountUp};
ghost use Rattle.r4_squeeze.specs.Items.{items_meant};
ghost use Rattle.r4_squeeze.specs.Packing.{numbers};
ghost use Rattle.r4_row_edit.specs.Over.{ShareOut, StandsOver};
ghost use Rattle.r4_row_edit.specs.Repacked.{IsRepacked, items_over};
ghost use Rattle.r4_row_edit.specs.Numbers.{AddsFresh, TakesNumbers};

use crate::moving::{move_all, move_some};
use crate::placing::place_in;
use r4_base::{Memory, NodeId, get32};
use r4_cell::{Cell, Fresh};
use r4_path::take_number;
use r4_squeeze::{NodeItem, add_pointers, items_of_all, numbered, numbers_of, pack_nodes};
use std::alloc::Global;
use std::sync::Arc;

/// Packs nodes above the twigs anew that stand beside each other, with pointers to cells that come in the place of those
/// to cells that go; the other items stay in their order. There are as few nodes as hold them, with the numbers of the row
/// from the left on, and then fresh ones: no more than there are more cells that come than that go. The only error is want
/// of memory; then numbers may have been taken (docs/volume.md, "Edits").
pub fn repacked(
    alloc: Global,
    row: &[Arc<Cell>],
    gone: &[Arc<Cell>],
    come: &[Arc<Cell>],
    fresh: &mut Fresh,
) -> Result<Vec<Arc<Cell>>, Memory>
    requires over { (l : ℕ) × StandsOver l (map (λ c. arc_value c) gone.now)
        (map (λ c. arc_value c) row.now) }
    requires come { ShareOut (map (λ c. arc_value c) gone.now) (map (λ c. arc_value c) come.now) }
    requires fresh { fresh.old.next + (length come.now - length gone.now) ≤ fresh.old.end }
    ensures { IfOk result (λ v. (l : ℕ) → StandsOver l (map (λ c. arc_value c) gone.now)
        (map (λ c. arc_value c) row.now)
        → IsRepacked l (map (λ c. arc_value c) row.now) (map (λ c. arc_value c) gone.now)
        (map (λ c. arc_value c) come.now) fresh.old fresh.new (map (λ c. arc_value c) v.items)) }
{
    let items = items_over(alloc, row, gone, come)?;
    let first = &row[0];
    let mkfs_id = get32(first.block().bytes(), 12);
    let mut filled = Vec::new(alloc);
    pack_nodes(alloc, first.level(), mkfs_id, items.as_slice(), &mut filled)?;
    let ids = numbers_for(alloc, row, filled.len(), fresh)?;
    numbered(
        alloc,
        first.level(),
        ids.as_slice(),
        filled,
        row[row.len() - 1].hi(),
    )
}

// The items of a row, with pointers to what comes in the place of those to what goes.
fn items_over<'a>(
    alloc: Global,
    row: &'a [Arc<Cell>],
    gone: &[Arc<Cell>],
    come: &'a [Arc<Cell>],
) -> Result<Vec<NodeItem<'a>>, Memory>
    requires { (l : ℕ) × StandsOver l (map (λ c. arc_value c) gone.now)
        (map (λ c. arc_value c) row.now) }
    ensures items { IfOk result (λ v. (l : ℕ) (s : StandsOver l (map (λ c. arc_value c) gone.now)
        (map (λ c. arc_value c) row.now)) → items_meant v.items
        ≡ items_over l (map (λ c. arc_value c) gone.now) (map (λ c. arc_value c) row.now)
        (map (λ c. arc_value c) come.now) s) }
    ensures sound { IfOk result (λ v. (x : CellSeen)
        → Contains (map (λ c. arc_value c) row.now) x → IsSound x) }
{
    let had = items_of_all(alloc, row)?;
    let at = place_in(had.as_slice(), gone[0].lo());
    let mut items = Vec::new(alloc);
    let mut rest = had.into_iter();
    move_some(&mut rest, at, &mut items)?;
    add_pointers(&mut items, come)?;
    let mut over = Vec::new(alloc);
    move_some(&mut rest, gone.len(), &mut over)?;
    move_all(rest, &mut items)?;
    Ok(items)
}

/// The numbers of so many nodes: those of a row as far as it has some, and then fresh ones.
pub fn numbers_for(
    alloc: Global,
    row: &[Arc<Cell>],
    count: usize,
    fresh: &mut Fresh,
) -> Result<Vec<NodeId>, Memory>
    requires { fresh.old.next + (count - length row.now) ≤ fresh.old.end }
    ensures { IfOk result (λ v. TakesNumbers (ids_of (map (λ c. arc_value c) row.now)) count
        fresh.old fresh.new (numbers v.items)) }
{
    let mut ids = numbers_of(alloc, row)?;
    ids.truncate(count);
    add_fresh(&mut ids, count, fresh)?;
    Ok(ids)
}

// Fresh numbers come behind the others, until there are so many.
fn add_fresh(ids: &mut Vec<NodeId>, count: usize, fresh: &mut Fresh) -> Result<(), Memory>
    requires { fresh.old.next + (count - length ids.old.items) ≤ fresh.old.end }
    ensures { OnOk result (AddsFresh count fresh.old fresh.new (numbers ids.old.items)
        (numbers ids.new.items)) }
{
    if ids.len() >= count {
        return Ok(());
    }
    ids.push(take_number(fresh))?;
    add_fresh(ids, count, fresh)
}
