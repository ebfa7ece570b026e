//! Laws of what is kept of a run, from the opening to a commit and from one commit to the next (docs/durable.md). Each
//! is the contract of a function that does nothing.

ghost use Rattle.std.specs.Prelude.{◌≡◌, ◌↔◌, ◌+◌, ◌<◌, ◌^◌, ℕ, ◌≤◌, suc, List, [], ◌∷◌, ◌++◌, Option, Some};
ghost use Rattle.r4_base.specs.Image.{Image, IsImage};
ghost use Rattle.r4_base.specs.Volume.{IsLost};
ghost use Rattle.r4_base.specs.declared.things.AtomNo.{AtomNo};
ghost use Rattle.r4_content.specs.Locality.{commands};
ghost use Rattle.r4_content.specs.Meaning.{greatest_size};
ghost use Rattle.r4_flushed.specs.r4_sets_told.Runs.{IsLawfulRun};
ghost use Rattle.r4_outside.specs.Device.{Goes, IsQuiet, Leaves, LeavesOnly, TellsCrashes, TellsReads};
ghost use Rattle.r4_open.specs.r4_replay.Replay.{PutInPlace, SettlesAlike, SettlesAlways};
ghost use Rattle.r4_open.specs.declared.opened.Opened.{Opened};
ghost use Rattle.r4_open.specs.r4_space.Space.{Space, settled};
ghost use Rattle.r4_open.specs.r4_space.Lawful.{IsLawful};
ghost use Rattle.r4_flushed.specs.r4_trace.declared.entry.Entry.{Entry};
ghost use Rattle.r4_flushed.specs.r4_trace.Order.{IsOrdered};
ghost use Rattle.r4_flushed.specs.r4_trace.Job.{Asked};
ghost use Rattle.r4_flushed.specs.r4_trace.Safe.{CommitStep, HasFirst, HasNow, IsSafeFrom, Step};
ghost use Rattle.r4_flushed.specs.r4_trace.Traced.{committed_in, latest};
ghost use Rattle.r4_flushed.specs.r4_trace.declared.entry.Entry.TheVariants.{Committed, Sealed};
ghost use Rattle.r4_flushed.specs.r4_wander.declared.plan.LogPlan.{LogPlan};
ghost use Rattle.r4_flushed.specs.r4_sets.Atoms.{committed, sealed};
ghost use Rattle.r4_flushed.specs.r4_sets.Session.{Session};
ghost use Rattle.r4_flushed.specs.r4_sealed.Commits.{LeftInPart};
ghost use Rattle.r4_flushed.specs.r4_place.Chosen.{placed_all};
ghost use Rattle.r4_flushed.specs.Deferred.{AreDeferred, AreDeferredBut};
ghost use Rattle.r4_flushed.specs.Flushed.{OwnsBlocks};
ghost use Rattle.r4_flushed.specs.r4_placed.Flushing.{Flushing, commit_by_block};
ghost use Rattle.r4_durable.specs.GoingOn.{GoesOn, MarksAlike, SealNothing};
ghost use Rattle.r4_durable.specs.Kept.{CanSeal, HasOpened, HasSettled, IsKept, IsSession, Means};
ghost use Rattle.r4_durable.specs.Kept.{IsUnderWay, sealing_of, session_of, space_of};
ghost use Rattle.r4_durable.specs.Meaning.{Beginning, IsNextId, IsOn, WasLost, first_id, means};
ghost use Rattle.r4_durable.specs.Meaning.{start_of};
ghost use Rattle.r4_durable.specs.Sealing.{IsSealing, Sealing, session_after};

use r4_flushed::on_disk_law;
use r4_outside::Device;

/// What settles as the image of a beginning, but for the footer's block, means its content (`alike`). So at each moment
/// of a replay a crash leaves that content, whether it is answered or refused (`moments`). A run from there begins
/// lawfully, by the greatest size of files (`lawful`). And where the replay put the log in place and the image was
/// opened, all is there that is kept while nothing is under way (`kept`).
pub fn openings_keep_volumes<D: Device>(old: &D, new: &D)
    ensures alike { (b : Beginning) (image : Image) → IsImage b.blocks image
        → SettlesAlike b.blocks b.image image → means b image b.content }
    ensures lawful { (b : Beginning) (job : Option Asked)
        → IsLawfulRun greatest_size (start_of b) job [] }
    ensures moments { (b : Beginning) (limit : ℕ) → IsOn b (D.state old.now)
        → Goes (D.state old.now) (D.state new.now)
        → SettlesAlways (D.state old.now) (D.state new.now)
        → IsSafeFrom (means b) (commands limit) b.content (D.state old.now).clock []
        (D.state new.now) }
    ensures kept { (b : Beginning) (limit : ℕ) (job : Option Asked) (o : Opened) (count : ℕ)
        → IsOn b (D.state old.now)
        → Goes (D.state old.now) (D.state new.now)
        → (TellsReads (D.state old.now) → PutInPlace (D.state old.now) count (D.state new.now))
        → (TellsCrashes (D.state old.now)
        → SettlesAlways (D.state old.now) (D.state new.now) × IsQuiet (D.state new.now))
        → (TellsReads (D.state new.now)
        → HasOpened limit b job o (D.state new.now).seen)
        → IsKept limit b job (session_of b) (space_of o) (D.state old.now).clock
        (D.state new.now) }
{
    let _ = old;
    let _ = new;
}

/// What is kept means what the committed atoms made (`now`). A flush from there can be sealed, and what is known of the
/// next id and of lost blocks is known of the image with which it begins (`sealed`); and its owned blocks are those of
/// cells then (`owns`).
pub fn kept_runs_can_be_sealed()
    ensures now { (limit : ℕ) (b : Beginning) (job : Option Asked) (c : Session) (s : Space)
        (image : Image) → Means limit b job c s image
        → HasNow (means b) (commands limit) b.content c.trace image }
    ensures sealed { (limit : ℕ) (b : Beginning) (job : Option Asked) (c : Session)
        (work : Flushing)
        (plan : LogPlan) (kept : Means limit b job c work.space work.base)
        → CanSeal limit b c kept.rests.super40 work plan
        → (h : IsSealing limit (first_id b) job b.blocks (sealing_of c work plan))
        × IsNextId b h.rest.content.super.oid
        × ((k : ℕ) → IsLost h.rest.content k ↔ WasLost b k) }
    ensures owns { (limit : ℕ) (b : Beginning) (job : Option Asked) (c : Session) (work : Flushing)
        (plan : LogPlan) (kept : Means limit b job c work.space work.base)
        → CanSeal limit b c kept.rests.super40 work plan
        → OwnsBlocks (session_after (sealing_of c work plan)) }
{}

/// What is kept stays kept where entries follow that seal and commit nothing, whatever becomes of the cells of open
/// atoms (`kept`). So what may be found of a run may be found still (`found`).
pub fn steps_are_kept()
    ensures kept { (limit : ℕ) (b : Beginning) (job : Option Asked) (c now : Session)
        (s later : Space)
        (more : List Entry) (image : Image) → Means limit b job c s image → GoesOn c now more
        → MarksAlike s later → IsLawful later → IsSession limit b job now → AreDeferred now later
        → Means limit b job now later image }
    ensures found { (limit : ℕ) (b : Beginning) (more trace : List Entry) (image : Image)
        → IsOrdered (more ++ trace) → SealNothing more
        → HasNow (means b) (commands limit) b.content trace image
        → HasNow (means b) (commands limit) b.content (more ++ trace) image }
{}

/// So it is on a device: what it reads, what crashes left of it, and that it is quiet.
pub fn steps_are_kept_on_devices<D: Device>(dev: &D)
    ensures { (limit : ℕ) (b : Beginning) (job : Option Asked) (c now : Session) (s later : Space)
        (more : List Entry) (t : ℕ) → IsKept limit b job c s t (D.state dev.now) → GoesOn c now more
        → MarksAlike s later → IsLawful later
        → (TellsReads (D.state dev.now) → IsSession limit b job now)
        → (TellsReads (D.state dev.now) → AreDeferred now later)
        → IsKept limit b job now later t (D.state dev.now) }
{
    let _ = dev;
}

/// An atom is sealed, committed and settled, from what is kept to what is kept again, while entries follow that seal
/// and commit nothing. Once the atom is sealed the session is one, in which the blocks of the others are deferred
/// (`session`). Whatever settles by the part of the
/// commit that is under way is what may be found then (`found`), and has the atom once the journal header is written
/// (`durable`); and in the end all is there again (`again`).
pub fn kept_runs_go_on()
    ensures session { (limit : ℕ) (b : Beginning) (job : Option Asked) (c : Session)
        (work : Flushing)
        (plan : LogPlan) → limit < 2 ^ 64 → IsUnderWay limit b job c work plan
        → IsSession limit b job (session_after (sealing_of c work plan))
        × AreDeferredBut work.atom (session_after (sealing_of c work plan))
        (placed_all work.space work.answers) }
    ensures found { (limit : ℕ) (b : Beginning) (job : Option Asked) (c : Session) (work : Flushing)
        (plan : LogPlan) → limit < 2 ^ 64 → IsUnderWay limit b job c work plan
        → (more : List Entry) → IsOrdered (more ++ (Sealed work.atom ∷ c.trace)) → SealNothing more
        → (i : ℕ) (image : Image) → IsImage b.blocks image
        → LeftInPart b.blocks (commit_by_block work plan) i image
        → HasNow (means b) (commands limit) b.content (more ++ (Sealed work.atom ∷ c.trace)) image }
    ensures durable { (limit : ℕ) (b : Beginning) (job : Option Asked) (c : Session)
        (work : Flushing)
        (plan : LogPlan) → limit < 2 ^ 64 → IsUnderWay limit b job c work plan
        → (more : List Entry) → IsOrdered (more ++ (Sealed work.atom ∷ c.trace)) → SealNothing more
        → (i : ℕ) (image : Image) → IsImage b.blocks image
        → LeftInPart b.blocks (commit_by_block work plan) (suc (suc i)) image
        → HasFirst (means b) (commands limit) b.content (more ++ (Sealed work.atom ∷ c.trace))
        (committed_in c.trace + 1) image }
    ensures again { (limit : ℕ) (b : Beginning) (job : Option Asked) (c : Session) (work : Flushing)
        (plan : LogPlan) → limit < 2 ^ 64 → IsUnderWay limit b job c work plan → (later : Space)
        (image : Image) → HasSettled b (sealing_of c work plan) later image → (now : Session)
        (more : List Entry) → GoesOn (session_after (sealing_of c work plan)) now more
        → IsSession limit b job now → AreDeferredBut work.atom now later → (clock : ℕ)
        → Means limit b job (committed now work.atom clock) (settled later work.atom) image }
{
    on_disk_law();
}

/// What a crash leaves of calls of a device while a commit is under way, in the words of a trace, whatever entries
/// follow that seal and commit nothing: while a part is written (`part`); where the last of the calls ends the journal
/// header, with the Committed entry (`header`); and behind it (`behind`).
pub fn moments_of_commits<D: Device>(old: &D, new: &D)
    ensures part { (limit : ℕ) (b : Beginning) (job : Option Asked) (c : Session) (work : Flushing)
        (plan : LogPlan) → limit < 2 ^ 64 → IsUnderWay limit b job c work plan
        → (more : List Entry) → IsOrdered (more ++ (Sealed work.atom ∷ c.trace)) → SealNothing more
        → (i : ℕ) → (D.state new.now).blocks ≡ b.blocks
        → latest (more ++ (Sealed work.atom ∷ c.trace)) ≤ (D.state old.now).clock
        → Goes (D.state old.now) (D.state new.now)
        → LeavesOnly (D.state old.now) (D.state new.now)
        (LeftInPart b.blocks (commit_by_block work plan) i)
        → Step (means b) (commands limit) b.content (more ++ (Sealed work.atom ∷ c.trace))
        (D.state old.now) (D.state new.now) }
    ensures header { (limit : ℕ) (b : Beginning) (job : Option Asked) (c : Session)
        (work : Flushing)
        (plan : LogPlan) → limit < 2 ^ 64 → IsUnderWay limit b job c work plan
        → (more : List Entry) → IsOrdered (more ++ (Sealed work.atom ∷ c.trace)) → SealNothing more
        → (i : ℕ) → (D.state new.now).blocks ≡ b.blocks
        → latest (more ++ (Sealed work.atom ∷ c.trace)) ≤ (D.state old.now).clock
        → Goes (D.state old.now) (D.state new.now)
        → LeavesOnly (D.state old.now) (D.state new.now)
        (LeftInPart b.blocks (commit_by_block work plan) i)
        → IsOrdered (Committed work.atom (D.state new.now).clock
        ∷ (more ++ (Sealed work.atom ∷ c.trace)))
        → (D.state old.now).clock < (D.state new.now).clock
        → ((image : Image) → Leaves (D.state new.now) (D.state new.now).clock image
        → LeftInPart b.blocks (commit_by_block work plan) 2 image)
        → CommitStep (means b) (commands limit) b.content (more ++ (Sealed work.atom ∷ c.trace))
        work.atom (D.state old.now) (D.state new.now) }
    ensures behind { (limit : ℕ) (b : Beginning) (job : Option Asked) (c : Session)
        (work : Flushing)
        (plan : LogPlan) → limit < 2 ^ 64 → IsUnderWay limit b job c work plan
        → (more later : List Entry) (clock : ℕ)
        → IsOrdered (later ++ (Committed work.atom clock ∷ (more ++ (Sealed work.atom ∷ c.trace))))
        → SealNothing more → SealNothing later
        → (i : ℕ) → (D.state new.now).blocks ≡ b.blocks
        → latest (later ++ (Committed work.atom clock ∷ (more ++ (Sealed work.atom ∷ c.trace))))
        ≤ (D.state old.now).clock
        → Goes (D.state old.now) (D.state new.now)
        → LeavesOnly (D.state old.now) (D.state new.now)
        (LeftInPart b.blocks (commit_by_block work plan) (suc (suc i)))
        → Step (means b) (commands limit) b.content
        (later ++ (Committed work.atom clock ∷ (more ++ (Sealed work.atom ∷ c.trace))))
        (D.state old.now) (D.state new.now) }
{
    on_disk_law();
    let _ = old;
    let _ = new;
}

/// Once the commit of a sealed atom has settled, all is there again that is kept while nothing is under way: for the
/// session with the Committed entry, and the space in which the atom has settled.
pub fn commits_are_kept()
    ensures { (limit : ℕ) (b : Beginning) (job : Option Asked) (x : Sealing) → limit < 2 ^ 64
        → (h : IsSealing limit (first_id b) job b.blocks x) → IsNextId b x.flush.next.oid
        → ((k : ℕ) → IsLost h.rest.content k ↔ WasLost b k) → (later : Space) (image : Image)
        → HasSettled b x later image → (now : Session) (more : List Entry)
        → GoesOn (session_after x) now more → IsSession limit b job now
        → AreDeferredBut x.flush.atom now later → (clock : ℕ)
        → Means limit b job (committed now x.flush.atom clock) (settled later x.flush.atom) image }
{
    on_disk_law();
}

/// An atom that owns no cell is sealed and committed, and nothing is written. Once it is sealed, the session is one, in
/// which the blocks of the others are deferred (`session`); and once it is committed, all is kept with the same image,
/// after whatever entries that seal and commit nothing (`again`).
pub fn empty_atoms_are_kept()
    ensures session { (limit : ℕ) (b : Beginning) (job : Option Asked) (c : Session) (s : Space)
        (image : Image) (a : AtomNo) → Means limit b job c s image
        → ((i : ℕ) → c.owner i ≡ Some a.0 → ⊥)
        → IsSession limit b job (sealed c a) × AreDeferredBut a (sealed c a) s }
    ensures again { (limit : ℕ) (b : Beginning) (job : Option Asked) (c : Session) (s : Space)
        (image : Image) (a : AtomNo) → Means limit b job c s image
        → ((i : ℕ) → c.owner i ≡ Some a.0 → ⊥) → (now : Session) (more : List Entry)
        → GoesOn (sealed c a) now more → IsSession limit b job now → (later : Space)
        → MarksAlike s later → IsLawful later → AreDeferred now later → (clock : ℕ)
        → Means limit b job (committed now a clock) later image }
{}
