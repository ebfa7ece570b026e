//! The nodes of one level that come in the place of one (docs/volume.md, "Edits").

ghost use Rattle.std.specs.Prelude.{◌≡◌, ℕ, ◌+◌, ◌<◌, ◌≤◌, [], ◌∷◌, length, IfOk, OnOk};
ghost use Rattle.std.specs.Arc.{arc_value};
ghost use Rattle.r4_path.specs.Nodes.{weight};
ghost use Rattle.r4_path.specs.Rows.{row_items};
ghost use Rattle.r4_path.specs.Sharing.{AreFilled, AreSome, HasItems, IsRowOf, Shares};
ghost use Rattle.r4_path.specs.Steps.{OnlyTakes};

use crate::numbers::take_number;
use crate::row::Row;
use r4_base::{Memory, NODE_ROOM};
use r4_patch::{Cell, Cells, Fresh, new_cell};
use std::alloc::Global;
use std::sync::Arc;

// How many bytes the items of a node have room in.
const ROOM: u32 = NODE_ROOM as u32;

/// One or two nodes with the items of a row in the place of a node: two where they do not fit into one. Then it takes a
/// fresh number.
pub fn share(alloc: Global, row: &Row<'_>, old: &Cell, fresh: &mut Fresh) -> Result<Cells, Memory>
    requires row { IsRowOf old.now row.now }
    requires number { fresh.old.next < fresh.old.end }
    ensures shares { IfOk result (λ cells. Shares old.now (row_items row.now) fresh.old fresh.new cells) }
    ensures numbers { OnlyTakes fresh.old fresh.new }
{
    if row.weight(0, row.len()) <= ROOM {
        return one(alloc, row, old);
    }
    two(alloc, row, old, fresh)
}

/// One node with the items of a row, which fit into it.
fn one(alloc: Global, row: &Row<'_>, old: &Cell) -> Result<Cells, Memory>
    requires row { IsRowOf old.now row.now }
    requires room { weight (row_items row.now) ≤ 4068 }
    ensures { IfOk result (λ cells. (next : ℕ) → HasItems old.now (row_items row.now) next cells × (length cells ≡ 1)) }
{
    let block = row.part(alloc, 0, row.len())?;
    let cell = new_cell(alloc, old.id(), old.level(), old.lo(), old.hi(), block)?;
    single(alloc, cell)
}

/// Two nodes with the items of a row, of which there are two at least.
pub fn two(alloc: Global, row: &Row<'_>, old: &Cell, fresh: &mut Fresh) -> Result<Cells, Memory>
    requires row { IsRowOf old.now row.now }
    requires two { 2 ≤ length (row_items row.now) }
    requires number { fresh.old.next < fresh.old.end }
    ensures cells { IfOk result (λ cells. HasItems old.now (row_items row.now) fresh.old.next cells × (length cells ≡ 2)) }
    ensures some { IfOk result (λ cells. AreSome cells) }
    ensures filled { IfOk result (λ cells. 3 ≤ old.now.level → 4068 < weight (row_items row.now) → AreFilled cells) }
    ensures fresh { OnOk result (fresh.new ≡ record fresh.old { next = fresh.old.next + 1 }) }
    ensures numbers { OnlyTakes fresh.old fresh.new }
{
    let cut = row.cut();
    let key = row.key(cut);
    let left = row.part(alloc, 0, cut)?;
    let right = row.part(alloc, cut, row.len())?;
    let left = new_cell(alloc, old.id(), old.level(), old.lo(), key, left)?;
    let right = new_cell(alloc, take_number(fresh), old.level(), key, old.hi(), right)?;
    pair(alloc, left, right)
}

/// The cell alone.
fn single(alloc: Global, cell: Arc<Cell>) -> Result<Cells, Memory>
    ensures { IfOk result (λ cells. cells ≡ arc_value cell ∷ []) }
{
    let mut cells = Vec::with_capacity(alloc, 1)?;
    cells.push(cell)?;
    Ok(Cells::from_vec(cells))
}

/// The two cells.
pub fn pair(alloc: Global, left: Arc<Cell>, right: Arc<Cell>) -> Result<Cells, Memory>
    ensures { IfOk result (λ cells. cells ≡ arc_value left ∷ (arc_value right ∷ [])) }
{
    let mut cells = Vec::with_capacity(alloc, 2)?;
    cells.push(left)?;
    cells.push(right)?;
    Ok(Cells::from_vec(cells))
}
