//! Laws of what a crash leaves (docs/traces.md). Each is the contract of a function that does
//! nothing.

ghost use Rattle.std.specs.Prelude.{◌≡◌, ◌≤◌, ◌∷◌, [], ℕ, true, List, length, Option, Some};
ghost use Rattle.r4_base.specs.Fresh.{IsFreshImage};
ghost use Rattle.r4_base.specs.Image.{Image};
ghost use Rattle.r4_base.specs.Value.{Content};
ghost use Rattle.r4_base.specs.Volume.{empty_volume};
ghost use Rattle.r4_base.specs.declared.limits.TheConstants.{FIRST_OBJECT};
ghost use Rattle.r4_base.specs.declared.things.AtomNo.{AtomNo};
ghost use Rattle.r4_content.specs.Locality.{Meaning};
ghost use Rattle.r4_content.specs.declared.command.Command.{Command};
ghost use Rattle.r4_content.specs.declared.reply.Reply.{Reply};
ghost use Rattle.r4_outside.specs.Device.{Leaves, TellsCrashes};
ghost use Rattle.r4_trace.specs.declared.entry.Entry.{Entry};
ghost use Rattle.r4_trace.specs.declared.entry.Entry.TheVariants.{Committed};
ghost use Rattle.r4_trace.specs.Traced.{IsSaid, committed_in, is_first, latest, sealed_in};
ghost use Rattle.r4_trace.specs.Order.{IsOrdered};
ghost use Rattle.r4_trace.specs.Safe.{AddsNothing, CommitStep, HasFirst, Holds, IsCrashSafe, IsNoCommit, IsSafeFrom, IsVolumeOf, Moments, Step};

use r4_outside::Device;

/// What content an image means. The laws below hold for every such meaning.
pub trait Images {
    ghost use Rattle.r4_base.specs.Image.{Image};
    ghost use Rattle.r4_base.specs.Value.{Content};

    ghost means: { Image → Content → Type 0 };
}

/// What a crash leaves is found as a run begins, where every image that a crash then leaves has
/// the content at the start; and it stays found: where an entry follows that makes no atom
/// durable; where the device is called and no entry follows; where the last of these calls makes
/// the sealed atom durable, and its Committed entry follows with the clock of then; and where such
/// an entry follows for an atom that changed nothing. The last clause says of any step which
/// moments are to be looked at.
pub fn steps_stay_safe<D: Device, M: Images>(old: &D, new: &D)
    ensures start { (w : Meaning Command Reply) (x : Content)
        → ((image : Image) → Leaves (D.state old.now) (D.state old.now).clock image
        → M.means image x)
        → IsSafeFrom M.means w x (D.state old.now).clock [] (D.state old.now) }
    ensures entry { (w : Meaning Command Reply) (x : Content) (t : ℕ)
        (older : List Entry) (e : Entry) → IsOrdered (e ∷ older) → IsNoCommit e
        → IsSafeFrom M.means w x t older (D.state old.now)
        → IsSafeFrom M.means w x t (e ∷ older) (D.state old.now) }
    ensures calls { (w : Meaning Command Reply) (x : Content) (t : ℕ) (trace : List Entry)
        → Step M.means w x trace (D.state old.now) (D.state new.now)
        → IsSafeFrom M.means w x t trace (D.state old.now)
        → IsSafeFrom M.means w x t trace (D.state new.now) }
    ensures committed { (w : Meaning Command Reply) (x : Content) (t : ℕ)
        (older : List Entry) (atom : AtomNo)
        → CommitStep M.means w x older atom (D.state old.now) (D.state new.now)
        → IsSafeFrom M.means w x t older (D.state old.now)
        → IsSafeFrom M.means w x t (Committed atom (D.state new.now).clock ∷ older)
        (D.state new.now) }
    ensures empty { (w : Meaning Command Reply) (x : Content) (t : ℕ)
        (older : List Entry) (atom : AtomNo)
        → IsOrdered (Committed atom (D.state old.now).clock ∷ older) → AddsNothing w x older
        → IsSafeFrom M.means w x t older (D.state old.now)
        → IsSafeFrom M.means w x t (Committed atom (D.state old.now).clock ∷ older)
        (D.state old.now) }
    ensures moments { (w : Meaning Command Reply) (x : Content) (t : ℕ)
        (older trace : List Entry)
        → Moments M.means w x older trace (D.state old.now) (D.state new.now)
        → IsSafeFrom M.means w x t older (D.state old.now)
        → IsSafeFrom M.means w x t trace (D.state new.now) }
{
    let _ = old;
    let _ = new;
}

/// Where that holds for the start and the clock that a run names, if it names both, the trace
/// is crash-safe, whatever it names.
pub fn named_is_crash_safe<D: Device, M: Images>(dev: &D)
    ensures { (w : Meaning Command Reply) (start : Option Content) (clock : Option ℕ)
        (trace : List Entry) → IsOrdered trace
        → (TellsCrashes (D.state dev.now) → (x : Content) (t : ℕ) → start ≡ Some x
        → clock ≡ Some t → IsSafeFrom M.means w x t trace (D.state dev.now))
        → IsCrashSafe M.means w start clock trace (D.state dev.now) }
{
    let _ = dev;
}

/// Once a trace is crash-safe and no clock is above the device's: whatever a crash from now on
/// leaves has each transaction that an `acked` line of it names; and where all that is sealed
/// is committed, reading gives what all of it made.
pub fn what_a_trace_promises<D: Device, M: Images>(dev: &D)
    ensures said { (w : Meaning Command Reply) (start : Option Content) (clock : Option ℕ)
        (trace : List Entry) → IsOrdered trace → latest trace ≤ (D.state dev.now).clock
        → IsCrashSafe M.means w start clock trace (D.state dev.now)
        → TellsCrashes (D.state dev.now) → (image : Image)
        → Leaves (D.state dev.now) (D.state dev.now).clock image
        → (h : Holds M.means w start clock trace (D.state dev.now).clock image)
        × ((t : ℕ) → IsSaid trace t → is_first trace h.k t ≡ true) }
    ensures reading { (w : Meaning Command Reply) (start : Option Content) (clock : Option ℕ)
        (trace : List Entry) → IsOrdered trace → latest trace ≤ (D.state dev.now).clock
        → IsCrashSafe M.means w start clock trace (D.state dev.now)
        → TellsCrashes (D.state dev.now) → sealed_in trace ≡ committed_in trace
        → (x : Content) (t : ℕ) → start ≡ Some x → clock ≡ Some t
        → t ≤ (D.state dev.now).clock
        → HasFirst M.means w x trace (sealed_in trace) (D.state dev.now).seen }
{
    let _ = dev;
}

/// A fresh image means the empty volume: its next id is the first one, and no block is lost.
pub fn fresh_images_are_empty()
    ensures { (n count : ℕ) (label : List ℕ) (image : Image) → length label ≡ 16
        → 64 ≤ n → n ≤ 1048576 → IsFreshImage n label image
        → IsVolumeOf n FIRST_OBJECT count (λ b. ⊥) image empty_volume }
{}
