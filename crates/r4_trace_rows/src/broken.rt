//! Traces that are not legal, each at one point.

ghost use Rattle.std.specs.Prelude.{List, Option, Some, reverse};
ghost use Rattle.r4_base.specs.Volume.{empty_volume};
ghost use Rattle.r4_content.specs.Locality.{Meaning, commands};
ghost use Rattle.r4_content.specs.Meaning.{greatest_size};
ghost use Rattle.r4_content.specs.declared.command.Command.{Command};
ghost use Rattle.r4_content.specs.declared.reply.Reply.{Reply};
ghost use Rattle.r4_trace.specs.declared.entry.Entry.{Entry};
ghost use Rattle.r4_trace.specs.Folds.{HasItsReplies, everything};
ghost use Rattle.r4_trace.specs.Ids.{HasNewIds, Start};
ghost use Rattle.r4_trace.specs.Job.{AllClosed, Asked, IsAnswered};
ghost use Rattle.r4_trace.specs.Legal.{IsLegal, RepliesFrom};
ghost use Rattle.r4_trace.specs.Order.{IsOrdered};
ghost use Rattle.r4_trace_rows.specs.Examples.{ComesTooLate, IsLegalSoFarFor, MayNotFollow, acks_early, begins_the_third, begins_twice, clock_falls, commits_another, commits_broken, does_for_another, draws_twice, ends_twice, fresh, keeps_the_gone, keeps_the_larger, other_reply, seals_none, seals_open, seals_two, skips, stat_job, stays_open, two_stats_job, usual_job};

/// Traces that are in order up to their last entry, which may not follow; so they are legal for no
/// meaning of commands, start or job.
pub fn refused_by_order()
    ensures begins_twice { MayNotFollow (reverse begins_twice) }
    ensures begins_the_third { MayNotFollow (reverse begins_the_third) }
    ensures does_for_another { MayNotFollow (reverse does_for_another) }
    ensures ends_twice { MayNotFollow (reverse ends_twice) }
    ensures keeps_the_larger { MayNotFollow (reverse keeps_the_larger) }
    ensures keeps_the_gone { MayNotFollow (reverse keeps_the_gone) }
    ensures seals_open { MayNotFollow (reverse seals_open) }
    ensures seals_none { MayNotFollow (reverse seals_none) }
    ensures seals_two { MayNotFollow (reverse seals_two) }
    ensures commits_another { MayNotFollow (reverse commits_another) }
    ensures acks_early { MayNotFollow (reverse acks_early) }
    ensures clock_falls { MayNotFollow (reverse clock_falls) }
    ensures commits_broken { ComesTooLate (reverse commits_broken) }
    ensures not_legal { (w : Meaning Command Reply) (start : Option Start) (job : Option Asked)
        (trace : List Entry) → MayNotFollow trace → IsLegal w start job trace → ⊥ }
    ensures not_legal_now { (w : Meaning Command Reply) (start : Option Start)
        (job : Option Asked) (trace : List Entry) → ComesTooLate trace
        → IsLegal w start job trace → ⊥ }
{}

/// Traces that are legal but for what was asked: one whose script's first command is passed over;
/// and one that is legal so far, whose transaction of a single command has to end.
pub fn refused_by_the_job()
    ensures skips { IsOrdered (reverse skips)
        × RepliesFrom (commands greatest_size) (Some fresh) (reverse skips)
        × HasNewIds (Some fresh) (Some two_stats_job) (reverse skips)
        × (IsAnswered two_stats_job (reverse skips) → ⊥) }
    ensures stays_open { IsLegalSoFarFor fresh usual_job stays_open
        × (AllClosed usual_job (reverse stays_open) → ⊥) }
{}

/// A trace that is legal but for its ids, since two objects have one; so it is legal for no start.
pub fn refused_by_ids()
    ensures draws_twice { IsOrdered (reverse draws_twice)
        × RepliesFrom (commands greatest_size) (Some fresh) (reverse draws_twice)
        × IsAnswered usual_job (reverse draws_twice)
        × ((start : Option Start) (job : Option Asked)
        → HasNewIds start job (reverse draws_twice) → ⊥) }
{}

/// A trace that is legal but for a reply, which is another than the command has on the content of
/// then.
pub fn refused_by_replies()
    ensures other_reply { IsOrdered (reverse other_reply)
        × IsAnswered stat_job (reverse other_reply)
        × HasNewIds (Some fresh) (Some stat_job) (reverse other_reply)
        × (HasItsReplies (commands greatest_size) empty_volume everything (reverse other_reply)
        → ⊥) }
{}
