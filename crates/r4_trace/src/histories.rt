//! Laws of legal traces (docs/traces.md). Each is the contract of a function that does nothing.

ghost use Rattle.std.specs.Prelude.{◌≡◌, ◌≢◌, ◌⊎◌, ◌↔◌, ◌+◌, ◌<◌, ◌≤◌, ◌∷◌, ℕ, Bool, true, List, Option, Some, None};
ghost use Rattle.r4_base.specs.Value.{Content};
ghost use Rattle.r4_base.specs.declared.things.ScriptNo.{ScriptNo};
ghost use Rattle.r4_base.specs.declared.things.TxnNo.{TxnNo};
ghost use Rattle.r4_content.specs.Locality.{Meaning};
ghost use Rattle.r4_content.specs.declared.command.Command.{Command};
ghost use Rattle.r4_content.specs.declared.reply.Reply.{Reply};
ghost use Rattle.r4_trace.specs.declared.entry.Entry.{Entry};
ghost use Rattle.r4_trace.specs.declared.entry.Entry.TheVariants.{Begin, Done, Ended, Refused};
ghost use Rattle.r4_trace.specs.Traced.{IsAcked, IsBegun, IsCommitted, IsEnded, IsOpen, IsSealed, atom_in, begun_in, committed_by, committed_in, in_first, is_first, last_sealed, latest, sealed_in};
ghost use Rattle.r4_trace.specs.Folds.{HasFirstReplies, HasItsReplies, after_first, content_of, everything};
ghost use Rattle.r4_trace.specs.Order.{IsOrdered, MayFollow};
ghost use Rattle.r4_trace.specs.Job.{Answers, Asked, HasNoBegin, commands_of, place, pushed, txn_in};
ghost use Rattle.r4_trace.specs.Ids.{Start};
ghost use Rattle.r4_trace.specs.Legal.{IsFinished, IsLegal, IsLegalSoFar, IsWhole};

/// What the first k atoms made stays, whatever entry follows, where k were sealed; and so do
/// their replies.
pub fn first_atoms_stay()
    ensures first { (older : List Entry) (e : Entry) (k t : ℕ) → IsOrdered (e ∷ older)
        → k ≤ sealed_in older → is_first (e ∷ older) k t ≡ is_first older k t }
    ensures grows { (older : List Entry) (e : Entry) (k t : ℕ) → IsOrdered (e ∷ older)
        → is_first older k t ≡ true → is_first (e ∷ older) k t ≡ true }
    ensures content { (w : Meaning Command Reply) (x : Content)
        (older : List Entry) (e : Entry) (k : ℕ) → IsOrdered (e ∷ older)
        → k ≤ sealed_in older → after_first w x (e ∷ older) k ≡ after_first w x older k }
    ensures replies { (w : Meaning Command Reply) (x : Content)
        (older : List Entry) (e : Entry) (k : ℕ) → IsOrdered (e ∷ older)
        → k ≤ sealed_in older → HasFirstReplies w x older k → HasFirstReplies w x (e ∷ older) k }
{}

/// What is acknowledged by a moment is among the first atoms that are committed by then, and
/// each transaction of the first atoms has ended. An open transaction is in no sealed atom.
pub fn acknowledged_are_first()
    ensures acked { (trace : List Entry) (m k t : ℕ) → IsOrdered trace
        → committed_by m trace ≤ k → IsAcked trace m t → is_first trace k t ≡ true }
    ensures ended { (trace : List Entry) (k t s : ℕ) → IsOrdered trace
        → IsBegun trace t s → is_first trace k t ≡ true → IsEnded trace t }
    ensures unsealed { (trace : List Entry) (t s : ℕ) → IsOrdered trace
        → IsOpen trace t s → IsSealed trace (atom_in trace t) → ⊥ }
{}

/// Atoms are committed one after the other, in the order in which they are sealed; at a moment
/// that no clock is above, all that are committed count.
pub fn commits_are_in_order()
    ensures counts { (trace : List Entry) → IsOrdered trace
        → (sealed_in trace ≡ committed_in trace) ⊎ (sealed_in trace ≡ committed_in trace + 1) }
    ensures durable { (trace : List Entry) (a : ℕ) → IsOrdered trace → IsSealed trace a
        → IsCommitted trace a
        ⊎ ((last_sealed trace ≡ Some a) × (sealed_in trace ≡ committed_in trace + 1)) }
    ensures first { (trace : List Entry) (k a : ℕ) → IsOrdered trace
        → committed_in trace ≤ k → IsCommitted trace a → in_first trace k a ≡ true }
    ensures by_now { (trace : List Entry) (m : ℕ) → IsOrdered trace
        → latest trace ≤ m → committed_by m trace ≡ committed_in trace }
    ensures by_then { (trace : List Entry) (m : ℕ) → committed_by m trace ≤ committed_in trace }
{}

/// Transactions are numbered in the order in which they begin, and a choice of all that were
/// begun chooses everything.
pub fn all_that_began()
    ensures begun { (trace : List Entry) (t s : ℕ) → IsOrdered trace
        → IsBegun trace t s → (0 < t) × (t ≤ begun_in trace) }
    ensures new_atom { (trace : List Entry) (t : ℕ) → IsOrdered trace
        → begun_in trace < t → atom_in trace t ≡ t }
    ensures content { (w : Meaning Command Reply) (x : Content) (f : ℕ → Bool)
        (trace : List Entry) → IsOrdered trace → ((t s : ℕ) → IsBegun trace t s → f t ≡ true)
        → content_of w x f trace ≡ content_of w x everything trace }
    ensures replies { (w : Meaning Command Reply) (x : Content) (f : ℕ → Bool)
        (trace : List Entry) → IsOrdered trace → ((t s : ℕ) → IsBegun trace t s → f t ≡ true)
        → HasItsReplies w x everything trace → HasItsReplies w x f trace }
{}

/// The transaction of a script's place is the one that is open.
pub fn places_tell()
    ensures { (job : Asked) (trace : List Entry) (t s : ℕ) → IsOrdered trace
        → IsOpen trace t s ↔ (txn_in (place (commands_of job s) trace s).within ≡ Some t) }
{}

/// A trace that is legal for a job is legal for the job with a command more, at the end of a
/// script that has no `begin`; and each script is as far as it was.
pub fn jobs_may_grow()
    ensures so_far { (w : Meaning Command Reply) (start : Option Start) (job : Asked)
        (trace : List Entry) (s : ℕ) (c : Command) → HasNoBegin (commands_of job s)
        → IsLegalSoFar w start (Some job) trace
        → IsLegalSoFar w start (Some (pushed job s c)) trace }
    ensures legal { (w : Meaning Command Reply) (start : Option Start) (job : Asked)
        (trace : List Entry) (s : ℕ) (c : Command) → HasNoBegin (commands_of job s)
        → IsLegal w start (Some job) trace → IsLegal w start (Some (pushed job s c)) trace }
    ensures places { (w : Meaning Command Reply) (start : Option Start) (job : Asked)
        (trace : List Entry) (s : ℕ) (c : Command) → HasNoBegin (commands_of job s)
        → IsLegalSoFar w start (Some job) trace → (q : ℕ)
        → place (commands_of (pushed job s c) q) trace q ≡ place (commands_of job q) trace q }
{}

/// A trace that is legal so far was so before each of its entries.
pub fn earlier_traces_are_legal()
    ensures { (w : Meaning Command Reply) (start : Option Start) (job : Option Asked)
        (older : List Entry) (e : Entry) → IsLegalSoFar w start job (e ∷ older)
        → IsLegalSoFar w start job older }
{}

/// A run that names less promises less: a trace that is legal for a start and a job is legal
/// where one of them is not named.
pub fn less_may_be_named()
    ensures start { (w : Meaning Command Reply) (start : Option Start) (job : Option Asked)
        (trace : List Entry) → IsLegal w start job trace → IsLegal w None job trace }
    ensures job { (w : Meaning Command Reply) (start : Option Start) (job : Option Asked)
        (trace : List Entry) → IsLegal w start job trace → IsLegal w start None trace }
{}

/// An entry that answers the next command of its script, from where the script stands, may
/// follow, where the number of what begins is the next one. Where a transaction ends, the other
/// scripts stay where they are.
pub fn answers_may_follow()
    ensures begin { (job : Asked) (older : List Entry) (txn : TxnNo) (script : ScriptNo)
        → IsOrdered older → Answers job older (Begin txn script) → txn.0 ≡ begun_in older + 1
        → MayFollow older (Begin txn script) }
    ensures done { (job : Asked) (older : List Entry) (txn : TxnNo) (script : ScriptNo)
        (index : ℕ) (c : Command) (r : Reply) → IsOrdered older
        → Answers job older (Done txn script index c r)
        → MayFollow older (Done txn script index c r) }
    ensures refused { (job : Asked) (older : List Entry) (txn : TxnNo) (script : ScriptNo)
        (index : ℕ) (r : Reply) → IsOrdered older
        → Answers job older (Refused txn script index r)
        → MayFollow older (Refused txn script index r) }
    ensures ended { (job : Asked) (older : List Entry) (txn : TxnNo)
        → IsOrdered older → Answers job older (Ended txn) → MayFollow older (Ended txn) }
    ensures others { (job : Asked) (older : List Entry) (txn : TxnNo) (s q : ℕ)
        → IsOrdered older → txn_in (place (commands_of job s) older s).within ≡ Some txn.0
        → q ≢ s
        → place (commands_of job q) (Ended txn ∷ older) q ≡ place (commands_of job q) older q }
{}

/// A run whose scripts are all at their ends is whole where each of its atoms is committed and
/// no call of the device failed.
pub fn finished_is_whole()
    ensures { (job : Asked) (trace : List Entry) → IsOrdered trace
        → IsFinished job trace → IsWhole job trace }
{}
