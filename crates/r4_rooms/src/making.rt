//! Room is made.

ghost use Rattle.std.specs.Prelude.{OnOk};
ghost use Rattle.r4_rooms.specs.Rooms.{HasMoreCaptures, HasMoreClaims, HasMoreEntries};
ghost use Rattle.r4_rooms.specs.Rooms.{HasMorePlaces, HasRooms};

use crate::owing::tasks_owe;
use r4_atoms::Atoms;
use r4_base::Memory;
use r4_kept::Buffer;
use r4_space::SpaceMap;
use r4_trace::Trace;
use r4_turns::Turns;
use std::alloc::{AllocError, Global};

/// For how much there is to be room, beside what was promised before.
#[derive(Clone, Copy, Debug, PartialEq, Eq)]
pub struct Wanted {
    /// Entries of the trace.
    pub entries: u64,
    /// Nodes that are captured, each a cell in memory.
    pub cells: u64,
    /// Cells that come into memory besides.
    pub met: u64,
    /// Claims on blocks.
    pub claims: u64,
}

/// Makes room for all that is wanted and for what tasks that are out may still use up, and for one
/// more transaction. Where there is no memory, some of it may be there; all else of the parts is as
/// it was (docs/core.md, "Room").
pub fn make_room(
    alloc: Global,
    turns: &Turns,
    trace: &mut Trace,
    atoms: &mut Atoms,
    buffer: &mut Buffer,
    space: &mut SpaceMap,
    wanted: Wanted,
) -> Result<(), Memory>
    ensures entries { HasMoreEntries trace.old trace.new }
    ensures captures { HasMoreCaptures atoms.old atoms.new }
    ensures places { HasMorePlaces buffer.old buffer.new }
    ensures claims { HasMoreClaims space.old space.new }
    ensures ok { OnOk result (HasRooms turns.now.turns wanted trace.old trace.new atoms.new
        buffer.new space.new) }
{
    let owed = tasks_owe(turns).ok_or(AllocError)?;
    let entries = trace.spare().checked_add(wanted.entries).ok_or(AllocError)?;
    let captures = owed.cells.checked_add(wanted.cells).ok_or(AllocError)?;
    let places = captures.checked_add(wanted.met).ok_or(AllocError)?;
    let claims = owed.claims.checked_add(wanted.claims).ok_or(AllocError)?;
    trace.room(entries)?;
    atoms.room(alloc, captures)?;
    atoms.room_for_txns(alloc, 1)?;
    buffer.room(alloc, places)?;
    space.room(alloc, claims)?;
    Ok(())
}
