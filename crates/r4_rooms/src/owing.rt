//! What tasks that are out may still use up.

ghost use Rattle.std.specs.Prelude.{◌≡◌, ◌+◌, IfSome};
ghost use Rattle.std.specs.Option.{option_copied};
ghost use Rattle.r4_kept.specs.Accounts.{cells_for, claims_for};
ghost use Rattle.r4_rooms.specs.Rooms.{AreOwed};

use r4_base::ScriptNo;
use r4_turns::{Out, Turns};

/// For how many cells, and for how many claims on blocks, tasks that are out were given room.
#[derive(Clone, Copy, Debug, PartialEq, Eq)]
pub struct Owed {
    pub cells: u64,
    pub claims: u64,
}

/// For how many cells and claims all tasks that are out were given room, if these are numbers of 64
/// bits. No memory.
pub fn tasks_owe(turns: &Turns) -> Option<Owed>
    ensures { IfSome result (λ o. AreOwed turns.now.turns o) }
{
    let mut owed = Owed {
        cells: 0,
        claims: 0,
    };
    for place in 0..turns.count() {
        owed = with_task(owed, turns.out(ScriptNo(place + 1)))?;
    }
    Some(owed)
}

// So many, and those of a task, if one is out.
fn with_task(owed: Owed, out: Option<&Out>) -> Option<Owed>
    ensures { IfSome result (λ o. (o.cells ≡ owed.cells + cells_for (option_copied out.entry))
        × (o.claims ≡ owed.claims + claims_for (option_copied out.entry))) }
{
    match out {
        None => Some(owed),
        Some(out) => Some(Owed {
            cells: owed.cells.checked_add(out.cells)?,
            claims: owed.claims.checked_add(out.claims)?,
        }),
    }
}
