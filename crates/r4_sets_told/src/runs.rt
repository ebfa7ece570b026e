//! Laws of the commands of chosen transactions (docs/sets.md). Each is the contract of a function that does nothing.

ghost use Rattle.std.specs.Prelude.{◌≡◌, ◌+◌, ◌<◌, ◌^◌, ℕ, Bool, List, Option};
ghost use Rattle.r4_base.specs.Value.{Content};
ghost use Rattle.r4_base.specs.Volume.{HasIds, HasStat, objects_in};
ghost use Rattle.r4_base.specs.declared.items.Attr.{Attr};
ghost use Rattle.r4_base.specs.declared.items.Target.{Target};
ghost use Rattle.r4_base.specs.declared.superblock.Super40.{Super40};
ghost use Rattle.r4_content.specs.Lawful.{IsLawful};
ghost use Rattle.r4_content.specs.Locality.{IsLocal, Meaning, commands};
ghost use Rattle.r4_content.specs.declared.command.Command.{Command};
ghost use Rattle.r4_content.specs.declared.reply.Reply.{Reply};
ghost use Rattle.r4_sets.specs.r4_trace.Folds.{HasItsReplies, content_of, everything};
ghost use Rattle.r4_sets.specs.r4_trace.Ids.{Start};
ghost use Rattle.r4_sets.specs.r4_trace.Job.{Asked};
ghost use Rattle.r4_sets.specs.r4_trace.declared.entry.Entry.{Entry};
ghost use Rattle.r4_sets.specs.Session.{FindsAlike};
ghost use Rattle.r4_sets_told.specs.Runs.{CountsObjects, IsKnown, IsLawfulRun, born_in, gone_in};

/// Chosen commands that find what they found where all were done have their replies again.
pub fn chosen_commands()
    ensures replies { (w : Meaning Command Reply) → IsLocal w → (start : Content)
        (trace : List Entry) (s : ℕ → Bool) → HasItsReplies w start everything trace
        → FindsAlike w start s trace → HasItsReplies w start s trace }
{}

/// Where a run begins with a lawful content, and what it makes gets new ids, each choice of its transactions makes a
/// lawful content: its objects are those of the start and those that commands made, under ids that stand for one.
pub fn chosen_commands_stay_lawful()
    ensures lawful { (limit : ℕ) (start : Start) (job : Option Asked) (trace : List Entry)
        (s : ℕ → Bool) → limit < 2 ^ 64 → IsLawfulRun limit start job trace
        → IsLawful limit (content_of (commands limit) start.content s trace) }
    ensures known { (limit : ℕ) (start : Start) (job : Option Asked) (trace : List Entry)
        (s : ℕ → Bool) → limit < 2 ^ 64 → IsLawfulRun limit start job trace
        → (o : Target) (a : Attr) → HasStat (content_of (commands limit) start.content s trace) o a
        → IsKnown start trace o }
{}

/// Where chosen commands find what they found where all were done, they make as many objects as they did there, and
/// take away as many. So a superblock that counts them, and whose next id is above all that were drawn, has the ids
/// and the file count of their content.
pub fn chosen_commands_count()
    ensures objects { (limit : ℕ) (start : Start) (job : Option Asked) (trace : List Entry)
        (s : ℕ → Bool) → limit < 2 ^ 64 → IsLawfulRun limit start job trace
        → FindsAlike (commands limit) start.content s trace
        → objects_in (content_of (commands limit) start.content s trace)
        + gone_in limit start.content s trace
        ≡ objects_in start.content + born_in limit start.content s trace }
    ensures ids { (limit : ℕ) (start : Start) (job : Option Asked) (trace : List Entry)
        (s : ℕ → Bool) (super : Super40) → limit < 2 ^ 64 → IsLawfulRun limit start job trace
        → FindsAlike (commands limit) start.content s trace
        → CountsObjects limit start s trace super
        → HasIds super (content_of (commands limit) start.content s trace) }
{}
