//! Room for a command's work.

ghost use Rattle.std.specs.Prelude.{◌≡◌, OnOk};
ghost use Rattle.r4_core.specs.Rooms.{HasRoomFor};
ghost use Rattle.r4_ready.specs.Rooms.{HasMoreRoom};

use crate::core_state::Core;
use r4_base::Memory;
use r4_outside::{Device, Run};
use r4_start::{Wanted, make_room};
use std::alloc::Global;

impl<D: Device, R: Run> Core<D, R> {
    /// There is room for what is wanted, beside what was promised before, and for one more
    /// transaction. All else is as it was, also where there is no memory.
    pub fn make_room(&mut self, alloc: Global, wanted: Wanted) -> Result<(), Memory>
        ensures more { HasMoreRoom self.old self.new }
        ensures ok { OnOk result (HasRoomFor wanted self.new) }
    {
        self.buffer.lawful();
        self.space.lawful();
        let made = make_room(
            alloc,
            &self.turns,
            &mut self.trace,
            &mut self.atoms,
            &mut self.buffer,
            &mut self.space,
            wanted,
        );
        self.buffer.lawful();
        made
    }
}
