//! What a task is given is shared with whoever works at it.

ghost use Rattle.std.specs.Prelude.{◌≡◌, IfOk};
ghost use Rattle.std.specs.Arc.{arc_value};
ghost use Rattle.r4_take.specs.Sending.{HasSame};

use r4_base::Memory;
use r4_cell::Cells;
use r4_content::Seen;
use std::alloc::Global;
use std::sync::Arc;

/// What whoever works at a task has of what it is given, shared with what the core keeps: the cells
/// that it reads and those that it writes, and what was seen for it.
#[derive(Drop)]
pub struct Lent {
    pub reads: Cells,
    pub writes: Cells,
    pub seen: Arc<Seen>,
}

// The same cells and what was seen, shared. The only error is want of memory.
pub(crate) fn lent_of(
    alloc: Global,
    reads: &Cells,
    writes: &Cells,
    seen: &Arc<Seen>,
) -> Result<Lent, Memory>
    ensures { IfOk result (HasSame reads.now writes.now (arc_value seen.now)) }
{
    Ok(Lent {
        reads: shared(alloc, reads)?,
        writes: shared(alloc, writes)?,
        seen: Arc::try_clone(seen)?,
    })
}

// These cells, shared.
fn shared(alloc: Global, cells: &Cells) -> Result<Cells, Memory>
    ensures { IfOk result (λ c. c ≡ cells.now) }
{
    let cells = cells.as_slice();
    let mut items = Vec::with_capacity(alloc, cells.len())?;
    for cell in cells {
        items.push(Arc::try_clone(cell)?)?;
    }
    Ok(Cells::from_vec(items))
}
