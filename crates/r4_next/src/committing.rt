//! A script whose next command is `commit`.

ghost use Rattle.std.specs.Prelude.{◌≡◌, None, Some};
ghost use Rattle.r4_content.specs.declared.command.Command.TheVariants as asks;
ghost use Rattle.r4_history.specs.Tables.{next_at};
ghost use Rattle.r4_next.specs.Taking.{IsLooked};
ghost use Rattle.r4_turns.specs.Turns.{IsScript, turn_at};

use crate::answering::last_of;
use crate::taken::{Looked, Taken};
use r4_atoms::Uncommitted;
use r4_base::ScriptNo;
use r4_history::Why;
use r4_outside::{Device, Run};
use r4_served::Core;

// It is acknowledged once all is committed; else an atom of the script is to be flushed, if one can
// be; else it waits. It takes no memory.
pub(crate) fn look_at_commit<D: Device, R: Run>(core: &mut Core<D, R>, script: ScriptNo) -> Looked
    requires sound { core.old.broken ≡ None }
    requires script { IsScript core.old.turns script.0 }
    requires free { (turn_at core.old.turns script.0).out ≡ None }
    requires next { next_at core.old.turns script.0 ≡ Some asks.Commit }
    ensures { IsLooked D.state core.old core.new script result }
{
    core.lawful();
    if core.atoms().all_committed(script) {
        let last = last_of(core.atoms(), script);
        core.acknowledge(script, last);
        return Looked::Takes(Taken::Replied(script));
    }
    if let Some(atom) = core.atom_under_way() {
        return Looked::Waits(Why::Sealed { atom });
    }
    match core.atoms().uncommitted_of(script) {
        Uncommitted::Closed(atom) => Looked::Takes(Taken::Flush(atom)),
        Uncommitted::Open { atom, txn } => Looked::Waits(Why::Open { atom, txn }),
        Uncommitted::None => unreachable!(),
    }
}
