//! Laws of a sealed atom, and of what a crash leaves of its commit (docs/durable.md). Each is the contract of a
//! function that does nothing.

ghost use Rattle.std.specs.Prelude.{◌≡◌, ◌↔◌, ◌+◌, ◌≤◌, ◌<◌, ◌^◌, ℕ, suc, Option};
ghost use Rattle.r4_base.specs.Image.{Image, IsImage};
ghost use Rattle.r4_base.specs.Volume.{HasContent, IsLost};
ghost use Rattle.r4_content.specs.Locality.{commands};
ghost use Rattle.r4_flushed.specs.r4_trace.Folds.{HasFirstReplies};
ghost use Rattle.r4_flushed.specs.r4_trace.Job.{Asked};
ghost use Rattle.r4_flushed.specs.r4_trace.Safe.{HasFirst, HasNow};
ghost use Rattle.r4_flushed.specs.r4_trace.Traced.{committed_in, sealed_in};
ghost use Rattle.r4_flushed.specs.r4_sets.Session.{Sets};
ghost use Rattle.r4_flushed.specs.r4_sealed.Commits.{IsCommitOn, LeftInPart, image_after, super_after};
ghost use Rattle.r4_flushed.specs.r4_sealed.Contents.{HasContentWith};
ghost use Rattle.r4_durable.specs.Meaning.{Beginning, IsNextId, WasLost, means};
ghost use Rattle.r4_durable.specs.Sealing.{IsSealing, MeansInPart, Sealing, commit_in, made_by};
ghost use Rattle.r4_durable.specs.Sealing.{session_after};

use r4_flushed::on_disk_law;

/// An open atom is sealed under the names of its blocks: the session means what it meant (`sets`), and the plan is safe
/// on its image (`commits`). The image with the atom's cells has the content of all that is sealed, with the superblock
/// that the plan writes and the cells with the atom in place (`content`), and in it each Done has its reply
/// (`replies`). And just the blocks are lost in it that were lost before (`lost`).
pub fn sealed_atoms_have_their_content()
    ensures sets { (limit next_id : ℕ) (job : Option Asked) (n : ℕ) (x : Sealing) → limit < 2 ^ 64
        → IsSealing limit next_id job n x → Sets (commands limit) (session_after x) }
    ensures commits { (limit next_id : ℕ) (job : Option Asked) (n : ℕ) (x : Sealing)
        → limit < 2 ^ 64
        → IsSealing limit next_id job n x → IsCommitOn n (commit_in x) }
    ensures content { (limit next_id : ℕ) (job : Option Asked) (n : ℕ) (x : Sealing)
        → limit < 2 ^ 64
        → (h : IsSealing limit next_id job n x)
        → (c : HasContentWith n (image_after (commit_in x)) (super_after (commit_in x)) x.under
        (made_by limit (session_after x) (sealed_in (session_after x).trace)))
        × ((b : ℕ) → IsLost h.rest.content b ↔ IsLost c.content b) }
    ensures replies { (limit next_id : ℕ) (job : Option Asked) (n : ℕ) (x : Sealing)
        → limit < 2 ^ 64
        → IsSealing limit next_id job n x
        → HasFirstReplies (commands limit) (session_after x).start (session_after x).trace
        (sealed_in (session_after x).trace) }
{
    on_disk_law();
}

/// Whatever settles by the part of the commit that is under way has the volume of all that is committed, or of all that
/// is sealed, with every reply; its next id is the old superblock's or the new one's; and the blocks are lost that were
/// lost before (`parts`). So it is what may be found of a run that began with a volume (`found`), and has the sealed
/// atom once the journal header is written (`durable`).
pub fn crashes_keep_contents()
    ensures parts { (limit next_id : ℕ) (job : Option Asked) (n : ℕ) (x : Sealing) → limit < 2 ^ 64
        → (h : IsSealing limit next_id job n x) (i : ℕ) (image : Image) → IsImage n image
        → LeftInPart n (commit_in x) i image
        → MeansInPart limit (session_after x) h.rest.content x.flush.next.oid i image }
    ensures found { (limit next_id : ℕ) (job : Option Asked) (b : Beginning) (x : Sealing)
        → limit < 2 ^ 64 → (h : IsSealing limit next_id job b.blocks x)
        → IsNextId b h.rest.content.super.oid → IsNextId b x.flush.next.oid
        → ((k : ℕ) → IsLost h.rest.content k → WasLost b k) → (i : ℕ) (image : Image)
        → IsImage b.blocks image → LeftInPart b.blocks (commit_in x) i image
        → HasNow (means b) (commands limit) (session_after x).start (session_after x).trace image }
    ensures durable { (limit next_id : ℕ) (job : Option Asked) (b : Beginning) (x : Sealing)
        → limit < 2 ^ 64 → (h : IsSealing limit next_id job b.blocks x)
        → IsNextId b h.rest.content.super.oid → IsNextId b x.flush.next.oid
        → ((k : ℕ) → IsLost h.rest.content k → WasLost b k) → (i : ℕ) (image : Image)
        → IsImage b.blocks image → LeftInPart b.blocks (commit_in x) (suc (suc i)) image
        → HasFirst (means b) (commands limit) (session_after x).start (session_after x).trace
        (committed_in (session_after x).trace + 1) image }
{
    on_disk_law();
}
