//! Commands of texts.

ghost use Rattle.std.specs.Prelude.{IfOk};
ghost use Rattle.r4_content.specs.Fields.{HasBytePaths};

use r4_base::Oid;
use r4_content::Command;
use r4_script::parse;
use std::alloc::Global;
use std::test::Fail;

/// The last command of a script of these lines (docs/scripts.md, "Commands"). An object that it
/// makes gets this number.
///
/// # Errors
/// Where there is no memory, or the lines are no script with a command.
pub fn command(alloc: Global, lines: &str, made: Oid) -> Result<Command, Fail>
    ensures { IfOk result (λ c. HasBytePaths c) }
{
    let mut script = Vec::from_slice(alloc, b"script\n")?;
    script.extend_from_slice(lines.as_bytes())?;
    let Ok(job) = parse(alloc, script.as_slice()) else {
        return Err(Fail::from("the lines are no script"));
    };
    let [script] = job.scripts.as_slice() else {
        return Err(Fail::from("not one script"));
    };
    let [.., command] = script.commands.as_slice() else {
        return Err(Fail::from("no command"));
    };
    let command = with_number(command.copy(alloc)?, made);
    command.lawful();
    Ok(command)
}

// The same command, with a number for the object that it makes.
fn with_number(command: Command, made: Oid) -> Command {
    match command {
        Command::Create { path, oid: _ } => Command::Create { path, oid: made },
        Command::Mkdir { path, oid: _ } => Command::Mkdir { path, oid: made },
        other => other,
    }
}
