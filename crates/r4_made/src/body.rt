//! The body that a task's command changes (docs/volume.md, "Reach").

ghost use Rattle.std.specs.Prelude.{◌≡◌, IfOk};
ghost use Rattle.std.specs.Arc.{arc_value};
ghost use Rattle.r4_put_tasks.specs.r4_build.Built.{edits_for};
ghost use Rattle.r4_content.specs.Fields.{HasBytePaths};
ghost use Rattle.r4_content.specs.Held.{edits_of, pairs_of};
ghost use Rattle.r4_content.specs.Seen.{Rises};
ghost use Rattle.r4_suited.specs.Suited.{AreLawfulSeen};
ghost use Rattle.r4_made.specs.Making.{IsPlanned, IsSizedAs};

use r4_base::Memory;
use r4_content::Edits;
use r4_put_tasks::{BodyChange, SizedBody, Task, body_changed};

/// How many bytes a file may have (docs/commands.md, "Bytes").
const GREATEST_SIZE: u64 = 1 << 30;

/// The body that a task's edits change, with where it stood, if they change one's. The only error
/// is want of memory: so it is said of a body that has more bytes than a file may have, and of one
/// that comes out of tails to extents as it becomes shorter, which no body of this project does.
pub(crate) fn body_of_task(task: &Task, edits: &Edits) -> Result<Option<SizedBody>, Memory>
    requires edits { edits_of edits.now ≡ edits_for task.now }
    requires rises { Rises (pairs_of (arc_value task.now.seen)) }
    requires paths { HasBytePaths task.now.command }
    requires lawful { AreLawfulSeen task.now.command (pairs_of (arc_value task.now.seen)) }
    ensures { IfOk result (λ b. IsPlanned task.now (edits_of edits.now) b) }
{
    match body_changed(edits, &task.seen) {
        Some(change) => Ok(Some(sized(&change, task.scope.in_extents)?)),
        None => Ok(None),
    }
}

// A body with where it stood, where it has no more bytes than a file may have.
fn sized(change: &BodyChange, in_extents: bool) -> Result<SizedBody, Memory>
    ensures { IfOk result (λ b. IsSizedAs change.now in_extents b) }
{
    if change.before > GREATEST_SIZE || change.after > GREATEST_SIZE {
        return Err(Memory);
    }
    if !in_extents && (change.is_spread() && change.after < change.before) {
        return Err(Memory);
    }
    Ok(SizedBody::new(change.first, change.before, change.after, in_extents))
}
