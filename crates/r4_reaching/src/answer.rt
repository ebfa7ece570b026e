//! A reach, from the cells that were met and those that are read and written.

ghost use Rattle.std.specs.Prelude.{◌≡◌, ◌+◌, IfOk, length, map};
ghost use Rattle.std.specs.Arc.{arc_value};
ghost use Rattle.std.specs.Option.{option_map};
ghost use Rattle.r4_judging.specs.r4_marking.Marks.{ask_seen};
ghost use Rattle.r4_touching.specs.r4_reach.Leaves.{rise_of};
ghost use Rattle.r4_reaching.specs.Answers.{IsFrom};

use crate::reached::Reach;
use r4_base::Memory;
use r4_cell::{Cell, Cells, Root};
use r4_content::Seen;
use r4_judging::Marks;
use std::alloc::AllocError;
use std::sync::Arc;

/// The reach of a command with these cells. The only error is want of memory, where 2^64 new cells or more may come.
pub(crate) fn reach_from(
    root: &Root,
    seen: Seen,
    met: Vec<Arc<Cell>>,
    marks: Marks,
) -> Result<Reach, Memory>
    ensures { IfOk result (IsFrom root.now seen (map (λ c. arc_value c) met.items) marks) }
{
    let most = most_in(&marks)?;
    Ok(Reach {
        reads: Cells::from_vec(marks.reads),
        writes: Cells::from_vec(marks.writes),
        met: Cells::from_vec(met),
        root: marks.rises.map(|_| *root),
        seen,
        most,
    })
}

// How many new cells come at most: one in the place of each that is written, those for which these ask, and a new root.
fn most_in(marks: &Marks) -> Result<u64, Memory>
    ensures { IfOk result (λ n. n ≡ length marks.now.writes.items + marks.now.more
        + rise_of (option_map ask_seen marks.now.rises)) }
{
    let below = (marks.writes.len() as u64)
        .checked_add(marks.more)
        .ok_or(AllocError)?;
    let rise = u64::from(marks.rises.is_some());
    Ok(below.checked_add(rise).ok_or(AllocError)?)
}
