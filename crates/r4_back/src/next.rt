//! The next command of a script is refused by itself.

ghost use Rattle.std.specs.Prelude.{◌≡◌, ℕ, MatchBool, Some, length};
ghost use Rattle.r4_back.specs.NextRefused.{HasRoomForRefusal, IsRefusableNext, refused_next};
ghost use Rattle.r4_content.specs.declared.command.Command.{Command as Asking};
ghost use Rattle.r4_content.specs.declared.command.Command.TheVariants as asks;
ghost use Rattle.r4_next.specs.r4_history.Tables.{next_at};
ghost use Rattle.r4_next.specs.r4_kept.Steps.{pushed};
ghost use Rattle.r4_turns.specs.Turns.{IsScript, answered_at, commands_at};

use r4_base::{ScriptNo, TxnNo};
use r4_content::{Command, Reply};
use r4_next::Core;
use r4_outside::{Device, Run};

/// Whether the next command of a script may be refused by itself, as `refuse_next` asks: it is work
/// or `commit`, and not out, and no transaction of the script is open. No memory.
pub fn is_refusable<D: Device, R: Run>(core: &Core<D, R>, script: ScriptNo) -> bool
    requires { IsScript core.now.turns script.0 }
    ensures { MatchBool result (IsRefusableNext core.now.turns script.0)
        (IsRefusableNext core.now.turns script.0 → ⊥) }
{
    let turns = core.turns();
    if turns.out(script).is_some() || turns.open(script).is_some() {
        return false;
    }
    match turns.command(script) {
        None | Some(Command::Begin | Command::End) => false,
        Some(_) => true,
    }
}

/// The next command of a script, work or `commit`, that is not out and stands outside of
/// transactions, is answered `memory`; after a call of the device failed it is answered `reopen`.
/// Its entry names transaction 0, and nothing else changes. No memory: there is room for the entry,
/// as since its `push` (docs/core.md, "A job that grows").
pub fn refuse_next<D: Device, R: Run>(core: &mut Core<D, R>, script: ScriptNo)
    requires next { IsRefusableNext core.old.turns script.0 }
    requires room { HasRoomForRefusal core.old script.0 }
    ensures { core.new ≡ refused_next core.old script }
{
    match core.broken() {
        Some(failed) => core.reopen(script, failed),
        None => core.refuse(script, TxnNo(0), Reply::Memory),
    }
}

/// There is room for the entry of a refusal: for that of a `commit` at any time, and for that of a
/// command as it comes with `push`, where each before it is answered.
pub fn refusals_have_room<D: Device, R: Run>(core: &Core<D, R>)
    ensures commit { (s : ℕ) → IsScript core.now.turns s
        → next_at core.now.turns s ≡ Some asks.Commit → HasRoomForRefusal core.now s }
    ensures pushed { (s : ℕ) (x : Asking) → IsScript core.now.turns s
        → answered_at core.now.turns s ≡ length (commands_at core.now.turns s)
        → HasRoomForRefusal (pushed core.now s x) s }
{
    core.lawful();
    let _ = core.turns().count();
}
