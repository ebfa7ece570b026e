//! Tasks are given back.

ghost use Rattle.std.specs.Prelude.{◌≡◌, IsSome, Some};
ghost use Rattle.r4_turns.specs.Turns.{IsScript, turn_at};
ghost use Rattle.r4_turns.specs.declared.out.Out.{Out};
ghost use Rattle.r4_ready.specs.r4_kept.Steps.{IsTakenBack};

use crate::core_state::Core;
use r4_base::ScriptNo;
use r4_outside::{Device, Run};

impl<D: Device, R: Run> Core<D, R> {
    /// The task of a script is given back: its command is the next one again.
    pub fn take_back(&mut self, script: ScriptNo)
        requires script { IsScript self.old.turns script.0 }
        requires is_out { IsSome (turn_at self.old.turns script.0).out }
        ensures { (out : Out) → (turn_at self.old.turns script.0).out ≡ Some out
            → IsTakenBack self.old self.new script.0 out }
    {
        self.buffer.lawful();
        let out = self.turns.give_back(script);
        self.locks.release(out.task);
        self.buffer.unuse(out.pins.as_slice());
        self.buffer.lawful();
    }
}
