//! Laws of when a commit is told (docs/durable.md, "Wrong bodies"). Each is the contract of a
//! function that does nothing.

ghost use Rattle.std.specs.Prelude.{◌≡◌, ◌≢◌, ◌∷◌, ◌+◌, ◌≤◌, ℕ, List, Result};
ghost use Rattle.r4_base.specs.Image.{Image};
ghost use Rattle.r4_base.specs.Volume.{empty_volume};
ghost use Rattle.r4_base.specs.declared.things.AtomNo.{AtomNo};
ghost use Rattle.r4_content.specs.Locality.{commands};
ghost use Rattle.r4_outside.specs.Device.{Leaves, TellsCrashes, Writes};
ghost use Rattle.r4_outside.specs.declared.device.Failed.{Failed};
ghost use Rattle.r4_trace.specs.Folds.{after_first};
ghost use Rattle.r4_trace.specs.Order.{IsOrdered};
ghost use Rattle.r4_trace.specs.Safe.{IsSafeFrom};
ghost use Rattle.r4_trace.specs.Traced.{committed_in};
ghost use Rattle.r4_trace.specs.declared.entry.Entry.{Entry};
ghost use Rattle.r4_trace.specs.declared.entry.Entry.TheVariants.{Committed};
ghost use Rattle.r4_durable.specs.Meaning.{Beginning, means};
ghost use Rattle.r4_durable_rows.specs.OneChange.{first_atom, one_change};

use r4_outside::Device;

/// Until a write is synced, also that of the journal header, a crash may leave what was read before
/// it (`unsynced`). A trace is not crash-safe where the Committed entry of an atom that changed
/// something has the clock of a moment at which a crash may leave what the atoms before it made
/// (`too_early`). So that clock is the one behind the sync.
pub fn commits_are_told_behind_the_sync<D: Device>(old: &D, new: &D)
    ensures unsynced { (at : ℕ) (block : List ℕ) (answer : Result (Unit {0}) Failed)
        → TellsCrashes (D.state old.now)
        → Writes at block (D.state old.now) answer (D.state new.now)
        → Leaves (D.state new.now) (D.state new.now).clock (D.state old.now).seen }
    ensures too_early { (limit : ℕ) (b : Beginning) (older : List Entry) (atom : AtomNo)
        (t clock : ℕ) (image : Image) → IsOrdered (Committed atom clock ∷ older) → t ≤ clock
        → clock ≤ (D.state new.now).clock → Leaves (D.state new.now) clock image
        → means b image (after_first (commands limit) b.content older (committed_in older))
        → after_first (commands limit) b.content older (committed_in older)
        ≢ after_first (commands limit) b.content older (committed_in older + 1)
        → IsSafeFrom (means b) (commands limit) b.content t (Committed atom clock ∷ older)
        (D.state new.now) → ⊥ }
{
    let _ = old;
    let _ = new;
}

/// There are such atoms: that of one transaction on the empty volume which changes the mode of the
/// root directory.
pub fn one_atom_changes_something()
    ensures ordered { (clock : ℕ) → IsOrdered (Committed first_atom clock ∷ one_change) }
    ensures changes { (limit : ℕ)
        → after_first (commands limit) empty_volume one_change (committed_in one_change)
        ≢ after_first (commands limit) empty_volume one_change (committed_in one_change + 1) }
{}
