//! A law of how long a commit takes (docs/durable.md, "How long a commit takes"). It is the contract
//! of a function that does nothing.

ghost use Rattle.std.specs.Prelude.{◌≤◌, ℕ, Option, length};
ghost use Rattle.r4_base.specs.Bitmap.{bitmap_count};
ghost use Rattle.r4_trace.specs.Job.{Asked};
ghost use Rattle.r4_wander.specs.LogPlan.{parts_of};
ghost use Rattle.r4_wander.specs.Parts.{IsOrderOf, Parts};
ghost use Rattle.r4_wander.specs.Progress.{calls_from};
ghost use Rattle.r4_durable.specs.Sealing.{IsSealing, Sealing};
ghost use Rattle.r4_durable_rows.specs.Bounded.{most_calls};

use r4_commit::commits_are_bounded;

/// The commit of a sealed atom ends with the call of this number at the latest, if none fails: by the
/// number of the atom's cells and that of the volume's bitmaps, whatever else the volume holds.
pub fn sealed_atoms_are_committed_soon()
    ensures { (limit next_id n : ℕ) (job : Option Asked) (x : Sealing) (parts : Parts)
        → IsSealing limit next_id job n x → IsOrderOf (parts_of x.plan) parts
        → calls_from parts 0
        ≤ most_calls (length x.flush.cells) (bitmap_count x.flush.space.block_count) }
{
    commits_are_bounded();
}
