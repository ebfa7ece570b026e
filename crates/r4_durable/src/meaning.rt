//! Laws of what images mean (docs/durable.md). Each is the contract of a function that does nothing.

ghost use Rattle.std.specs.Prelude.{◌≡◌, ℕ, List, Option, Some};
ghost use Rattle.r4_base.specs.Image.{Image};
ghost use Rattle.r4_base.specs.Value.{Content};
ghost use Rattle.r4_base.specs.Volume.{HasContent, IsLost};
ghost use Rattle.r4_content.specs.Locality.{commands};
ghost use Rattle.r4_outside.specs.Device.{TellsCrashes};
ghost use Rattle.r4_flushed.specs.r4_trace.declared.entry.Entry.{Entry};
ghost use Rattle.r4_flushed.specs.r4_trace.Order.{IsOrdered};
ghost use Rattle.r4_flushed.specs.r4_trace.Safe.{IsSafeFrom};
ghost use Rattle.r4_flushed.specs.r4_wander.Kept.{IsVolumeOf};
ghost use Rattle.r4_durable.specs.Meaning.{Beginning, IsNamed, IsNextId, IsSafeTrace, IsVolumeLike};
ghost use Rattle.r4_durable.specs.Meaning.{Names, WasLost, means};

use r4_outside::Device;

/// The image of a beginning means its content (`start`), and an image means one content at most (`one`). One that has
/// the volume of a content, with its superblock, its cells and its marks, has its next id and its lost blocks (`same`);
/// and it means its volume where that next id may have been reached and what is lost was lost at the beginning
/// (`like`).
pub fn images_mean_volumes()
    ensures start { (b : Beginning) → means b b.image b.content }
    ensures one { (b : Beginning) (image : Image) (m o : Content) → means b image m
        → means b image o
        → m ≡ o }
    ensures same { (n : ℕ) (target image : Image) (m : Content) (c : HasContent n target m)
        → IsVolumeOf n image target m c → IsVolumeLike c c.super.oid image m }
    ensures like { (b : Beginning) (old : Image) (o : Content) (c : HasContent b.blocks old o)
        (next_id : ℕ) (image : Image) (m : Content) → IsVolumeLike c next_id image m
        → IsNextId b next_id → ((k : ℕ) → IsLost c k → WasLost b k) → means b image m }
{}

/// A trace that is in order is crash-safe, whatever its run names, where it is so from the clock on that the run names,
/// if it names one and an image with a volume.
pub fn named_runs_are_crash_safe<D: Device>(dev: &D)
    ensures { (limit : ℕ) (r : Names) (trace : List Entry) → IsOrdered trace
        → (TellsCrashes (D.state dev.now) → (b : Beginning) (t : ℕ)
        → IsNamed r (D.state dev.now).blocks b → r.clock ≡ Some t
        → IsSafeFrom (means b) (commands limit) b.content t trace (D.state dev.now))
        → IsSafeTrace limit r trace (D.state dev.now) }
{
    let _ = dev;
}
