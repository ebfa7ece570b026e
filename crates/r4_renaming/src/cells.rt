//! The cells in memory, under their new names.

ghost use Rattle.std.specs.Prelude.{◌≡◌, ◌+◌, ◌≤◌, ◌<◌, ℕ, length, map, nat_eq, Contains, IsSome, OnOk, OnErr};
ghost use Rattle.std.specs.Arc.{arc_value};
ghost use Rattle.std.specs.List.{IsDistinct};
ghost use Rattle.r4_buffer.specs.Seen.{buffered};
ghost use Rattle.r4_flush.specs.declared.cells.RenamedCell.{RenamedCell};
ghost use Rattle.r4_renaming.specs.Renaming.{HaveNewNames};
ghost use Rattle.r4_renaming.specs.Steps.{IsFreeName, cell_moved};

use crate::names::is_unplaced;
use r4_base::Memory;
use r4_buffer::Buffer;
use r4_flush::RenamedCell;
use std::alloc::Global;

/// Makes room for so many more cells than there is room for. The only error is want of memory.
pub(crate) fn make_room(alloc: Global, buffer: &mut Buffer, cells: u64) -> Result<(), Memory>
    ensures cells { (i : ℕ) → buffered buffer.new i ≡ buffered buffer.old i }
    ensures ok { OnOk result (buffer.new.spare ≡ buffer.old.spare + cells) }
    ensures err { OnErr result (buffer.new ≡ buffer.old) }
{
    match buffer.spare().checked_add(cells) {
        Some(places) => buffer.room(alloc, places),
        None => Err(Memory),
    }
}

/// These cells stand in memory, each in place of the one that had its old name. No memory, and room for each of them.
pub(crate) fn rename_cells(buffer: &mut Buffer, renamed: Vec<RenamedCell>)
    requires before { IsDistinct nat_eq (map (λ (r : RenamedCell). r.was.0) renamed.items) }
    requires then { IsDistinct nat_eq
        (map (λ (r : RenamedCell). (arc_value r.cell).id) renamed.items) }
    requires there { (r : RenamedCell) → Contains renamed.items r
        → IsSome (buffered buffer.old r.was.0) }
    requires free { (r : RenamedCell) → Contains renamed.items r → IsFreeName buffer.old r }
    requires room { length renamed.items ≤ buffer.old.spare }
    ensures cells { HaveNewNames buffer.old buffer.new renamed.items }
    ensures spare { buffer.old.spare ≤ buffer.new.spare + length renamed.items }
{
    for cell in renamed {
        rename_cell(buffer, cell);
    }
}

// A cell stands in memory in place of the one that had its old name. A cell that had a block keeps its name.
fn rename_cell(buffer: &mut Buffer, cell: RenamedCell)
    requires free { IsFreeName buffer.old cell }
    requires room { 0 < buffer.old.spare }
    ensures cells { (i : ℕ) → buffered buffer.new i ≡ cell_moved buffer.old cell i }
    ensures spare { buffer.old.spare ≤ buffer.new.spare + 1 }
{
    if is_unplaced(cell.was) {
        buffer.rename(cell.was, cell.cell);
    } else {
        buffer.renew(cell.cell);
    }
}
