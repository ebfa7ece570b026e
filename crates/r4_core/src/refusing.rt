//! Single commands are refused whose tasks are out.

ghost use Rattle.std.specs.Prelude.{◌≡◌, IsSome, None, Some};
ghost use Rattle.r4_core.specs.RefusingOut.{IsRefusedOut};
ghost use Rattle.r4_others.specs.r4_history.Tables.{single};
ghost use Rattle.r4_turns.specs.Turns.{IsScript, turn_at};
ghost use Rattle.r4_turns.specs.declared.out.Out.{Out};

use crate::core_state::Core;
use r4_base::{ScriptNo, TxnNo};
use r4_content::Reply;
use r4_outside::{Device, Run};

impl<D: Device, R: Run> Core<D, R> {
    /// A single command whose task is out is refused. The task is given back first; then there is
    /// room for both entries, which no other call may have used.
    pub fn refuse_out(&mut self, script: ScriptNo, txn: TxnNo, reply: Reply)
        requires sound { self.old.broken ≡ None }
        requires script { IsScript self.old.turns script.0 }
        requires own { (turn_at self.old.turns script.0).transaction ≡ Some (single txn) }
        requires is_out { IsSome (turn_at self.old.turns script.0).out }
        ensures { (out : Out) → (turn_at self.old.turns script.0).out ≡ Some out
            → IsRefusedOut self.old self.new script txn reply out }
    {
        let _ = &self.commit;
        self.take_back(script);
        self.refuse_single(script, txn, reply);
    }
}
