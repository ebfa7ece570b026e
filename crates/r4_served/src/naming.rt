//! A command gets its numbers.

ghost use Rattle.std.specs.Prelude.{◌≡◌, IfOk};
ghost use Rattle.r4_content.specs.Fields.{HasBytePaths};
ghost use Rattle.r4_content.specs.Meaning.{with_id};
ghost use Rattle.r4_content.specs.declared.command.Command.{Command as Asking};
ghost use Rattle.r4_take.specs.Sending.{IsNamed, IsServable};

use r4_base::{Memory, Oid, ScriptNo};
use r4_content::Command;
use r4_outside::{Device, Run};
use r4_take::{Core, Draws, numbers_for};
use std::alloc::{AllocError, Global};

// The next command of a script under the id that it gets, if it makes an object, and its numbers.
// The only error is want of memory, or of numbers for new cells.
pub(crate) fn named<D: Device, R: Run>(
    core: &Core<D, R>,
    alloc: Global,
    script: ScriptNo,
) -> Result<(Draws, Command), Memory>
    requires { (x : Asking) × IsServable core.now script.0 x }
    ensures named { IfOk result (λ z. (x : Asking) → IsServable core.now script.0 x
        → IsNamed core.now script.0 x z.0 z.1) }
    ensures paths { IfOk result (λ z. HasBytePaths z.1) }
{
    let Some(command) = core.turns().command(script) else {
        unreachable!();
    };
    let kept = core.turns().numbers(script);
    let draws = numbers_for(kept, core.numbers(), command.makes_object()).ok_or(AllocError)?;
    let command = under_id(command.copy(alloc)?, draws.own.oid);
    command.lawful();
    Ok((draws, command))
}

// The command with this id, if it makes an object.
fn under_id(command: Command, oid: Oid) -> Command
    ensures { result ≡ with_id oid command }
{
    match command {
        Command::Create { path, .. } => Command::Create { path, oid },
        Command::Mkdir { path, .. } => Command::Mkdir { path, oid },
        other => other,
    }
}

// The number that is drawn next for a new cell. That it is of 64 bits is what its caller needs.
pub(crate) fn next_name<D: Device, R: Run>(core: &Core<D, R>) -> u64
    ensures { result ≡ core.now.numbers.next_name }
{
    core.numbers().next_name
}
