//! Worked examples (docs/histories.md).

ghost use Rattle.std.specs.Prelude.{◌∷◌, [], ℕ, None};
ghost use Rattle.std.specs.Global.{Global};
ghost use Rattle.std.specs.declared.sync.Arc.{Arc};
ghost use Rattle.r4_base.specs.declared.key.Key.{Key};
ghost use Rattle.r4_content.specs.Locality.{Meaning};
ghost use Rattle.r4_content.specs.declared.command.Command.{Command};
ghost use Rattle.r4_content.specs.declared.reply.Reply.{Reply};
ghost use Rattle.r4_content.specs.declared.seen.Seen.{Seen};
ghost use Rattle.r4_history.specs.Drawn.{AreDrawn};
ghost use Rattle.r4_history.specs.Held.{TasksTell};
ghost use Rattle.r4_history.specs.Serving.{AreOthers, IsInTheWay, IsWaiting};
ghost use Rattle.r4_history.specs.declared.why.Why.TheVariants.{Held, Out};
ghost use Rattle.r4_history.specs.Tables.{IsOver, Tables};
ghost use Rattle.r4_history.specs.Told.{IsTold};
ghost use Rattle.r4_history.specs.Worked.{make_locks, make_tables, one_trace, reads_five, trace_begun, two_atoms};

/// A script of one command and a `commit` runs to its end, entry by entry, whatever the reply is
/// where no start is named.
pub fn one_run()
    ensures { (w : Meaning Command Reply) (clock : ℕ) (r : Reply)
        → (t : Tables) × IsTold w None clock t (one_trace r clock) × IsOver t }
{}

/// A command of the first of two atoms reads a node that the second one owns: with that one its
/// atom fuses, and the entry names the node.
pub fn reading_fuses()
    ensures { AreOthers two_atoms 1 reads_five ((2, 5) ∷ []) }
{}

/// A command that makes a file is out, as the first of its run: its task holds the node that it
/// writes, and its id is drawn. Its script waits for it, and so does who wants to read the node.
pub fn one_task()
    ensures out { (w : Meaning Command Reply) (clock : ℕ) (k : Key) (y : Arc Seen Global)
        → IsTold w None clock (make_tables k y) trace_begun × TasksTell (make_tables k y) make_locks
        × AreDrawn 65536 (make_tables k y).turns 65537 trace_begun }
    ensures waits { (k : Key) (y : Arc Seen Global)
        → IsWaiting (make_tables k y) make_locks (λ s. None) (Out (record { 0 = 0 })) }
    ensures held { (k : Key) (y : Arc Seen Global)
        → IsInTheWay (make_tables k y).atoms make_locks reads_five
        (Held (record { 0 = 5 }) (record { 0 = 0 })) }
{}
