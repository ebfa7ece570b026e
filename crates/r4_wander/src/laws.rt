//! Laws of commits. Each is the contract of a function that does nothing.

ghost use Rattle.std.specs.Prelude.{◌≡◌, ◌≢◌, ℕ, ◌+◌, ◌≤◌, List, [], ◌∷◌, length, Contains};
ghost use Rattle.r4_base.specs.Chain.{Txn, HasLog, chain_pairs, originals};
ghost use Rattle.r4_base.specs.Image.{Image, IsImage, put_pairs};
ghost use Rattle.r4_base.specs.Value.{Content};
ghost use Rattle.r4_base.specs.Volume.{HasContent, HasVolume, IsMadeOf, Needs};
ghost use Rattle.r4_outside.specs.Device.{Goes, IsQuiet, LeavesOnly, TellsReads, Untouched};
ghost use Rattle.r4_wander.specs.Kept.{IsVolumeOf};
ghost use Rattle.r4_wander.specs.LogPlan.{IsBelow, first, parts_of, txn_of};
ghost use Rattle.r4_wander.specs.Parts.{Parts, part, base_of, IsOrderOf, HasHomes};
ghost use Rattle.r4_wander.specs.Progress.{Progress, ReadsAs, Stands, Commits, EndsQuiet, FitOn, calls_from};
ghost use Rattle.r4_wander.specs.Safe.{IsSafe, IsEncoded, ByPart, WithoutAtom, WithAtom, with_atom, is_scratch};
ghost use Rattle.r4_wander.specs.Torn.{IsTarget, IsTornBy};
ghost use Rattle.r4_wander.specs.declared.plan.LogPlan.{LogPlan};

use r4_outside::Device;

/// What a crash leaves of the writes of a part settles as without the commit, as with it, or, while the journal header is
/// written, as one of both; over any older chain, and in whatever order a part makes its writes. Once the header is
/// written the transaction is the newest of the log, and once the footer is written nothing is unflushed. Where nothing
/// was unflushed, the homes of the commit itself are those that the footer rests on (docs/commit.md, "Crashes").
pub fn commit_settles()
    ensures parts { (n i : ℕ) (base image : Image) (chain : List Txn) (p : LogPlan) (plan : Parts) → IsSafe n base chain p → IsEncoded p → IsOrderOf (parts_of p) plan
        → i ≤ 4 → (2 ≤ i → HasHomes n base chain (txn_of p) (parts_of p)) → IsTornBy (part plan i) (base_of plan base i) image → ByPart n base chain p i image }
    ensures logged { (n : ℕ) (base : Image) (chain : List Txn) (p : LogPlan) (plan : Parts) → IsSafe n base chain p → IsEncoded p → IsOrderOf (parts_of p) plan → HasLog n (base_of plan base 2) (txn_of p ∷ chain) }
    ensures footed { (n : ℕ) (base : Image) (chain : List Txn) (p : LogPlan) (plan : Parts) → IsSafe n base chain p → IsEncoded p → IsOrderOf (parts_of p) plan
        → HasHomes n base chain (txn_of p) (parts_of p) → HasLog n (base_of plan base 4) [] }
    ensures alone { (n : ℕ) (base : Image) (p : LogPlan) → IsSafe n base [] p → IsEncoded p → HasHomes n base [] (txn_of p) (parts_of p) }
    ensures order { (n i : ℕ) (base : Image) (chain : List Txn) (p : LogPlan) (plan : Parts) → IsSafe n base chain p → IsOrderOf (parts_of p) plan → base_of plan base i ≡ base_of (parts_of p) base i }
{}

/// An image that settles as without the commit has the old volume, where that needs no block of the first part; and one
/// that settles as with it has the volume of the settled image with the atom's cells, where that is not made of a block
/// of the log (docs/commit.md, "Crashes").
pub fn commit_keeps_volumes()
    ensures without { (n : ℕ) (base image : Image) (chain : List Txn) (p : LogPlan) (m : Content) (v : HasVolume n base m) → IsSafe n base chain p → ((b : ℕ) → IsTarget (first p) b → Needs v b → ⊥)
        → IsImage n image → WithoutAtom n base chain p image → HasVolume n image m }
    ensures with_it { (n : ℕ) (base image : Image) (chain : List Txn) (p : LogPlan) (m : Content) (c : HasContent n (with_atom base chain p) m) → ((b : ℕ) → is_scratch p b → IsMadeOf c b → ⊥)
        → IsImage n image → WithAtom n base chain p image → HasVolume n image m }
{}

/// The volume that an image then has is that of the old content, or of the new one, with its superblock, its cells and its
/// marks: so the next object id and the lost blocks are the content's (docs/commit.md, "Crashes").
pub fn commit_keeps_blocks()
    ensures without { (n : ℕ) (base image : Image) (chain : List Txn) (p : LogPlan) (m : Content) (v : HasVolume n base m) → IsSafe n base chain p → ((b : ℕ) → IsTarget (first p) b → Needs v b → ⊥)
        → IsImage n image → WithoutAtom n base chain p image → IsVolumeOf n image (put_pairs (chain_pairs v.chain) base) m v.content }
    ensures with_it { (n : ℕ) (base image : Image) (chain : List Txn) (p : LogPlan) (m : Content) (c : HasContent n (with_atom base chain p) m) → ((b : ℕ) → is_scratch p b → IsMadeOf c b → ⊥)
        → IsImage n image → WithAtom n base chain p image → IsVolumeOf n image (with_atom base chain p) m c }
{}

/// No write of a commit but those of the homes falls on a block that the volume of some image needs which a crash may
/// leave while the write is made; and the homes are originals of the transaction (docs/commit.md, "Needed blocks").
pub fn commit_spares_needed()
    ensures free { (n i : ℕ) (base image : Image) (chain : List Txn) (p : LogPlan) (plan : Parts) (m o : Content) (v : HasVolume n base m) (u : HasVolume n image o) (b : ℕ) → IsSafe n base chain p → IsEncoded p → IsOrderOf (parts_of p) plan
        → ((k : ℕ) → IsTarget (first p) k → Needs v k → ⊥) → i ≢ 2 → IsTornBy (part plan i) (base_of plan base i) image → IsTarget (part plan i) b → Needs u b → ⊥ }
    ensures homes { (p : LogPlan) (plan : Parts) (b : ℕ) → IsOrderOf (parts_of p) plan → IsTarget (part plan 2) b → Contains (originals (txn_of p ∷ [])) b }
{}

/// How many writes and syncs a commit makes: each placed cell, each copy, each record, the head, the journal header, each
/// home and the journal footer is written once, and each of the four parts is synced once (docs/commit.md, "Steps").
pub fn commit_is_bounded()
    ensures { (p : LogPlan) (plan : Parts) → IsOrderOf (parts_of p) plan
        → calls_from plan 0 ≡ length p.placed + length p.wandered + length p.records + 1 + 1 + length p.wandered + 1 + 4 }
{}

/// A writer can make its steps on a device of at least 64 blocks where every block of its plan but `prev` is below their
/// number (docs/commit.md, "Steps").
pub fn commit_fits()
    ensures { (n : ℕ) (p : LogPlan) (plan : Parts) → 64 ≤ n → IsBelow n p → IsOrderOf (parts_of p) plan → FitOn n plan }
{}

/// A writer at its beginning stands on a quiet device. Between two steps a crash leaves what settles by the part; where a
/// part has just begun, the device is quiet; and at the end nothing is unflushed. On a device that
/// tells what reading gives, and nothing of crashes, reading gives what the writer made, from the beginning to the end
/// (docs/commit.md, "Crashes").
pub fn commit_on_a_device<D: Device>(dev: &D)
    ensures begins { (w : Progress) → IsQuiet (D.state dev.now) → w.part ≡ 0 → w.done ≡ 0 → Stands w (D.state dev.now).seen (D.state dev.now) }
    ensures between { (w : Progress) (n : ℕ) (base : Image) (chain : List Txn) (p : LogPlan) → w.part ≤ 4 → Commits w n base chain p → Stands w base (D.state dev.now)
        → LeavesOnly (D.state dev.now) (D.state dev.now) (ByPart n base chain p w.part) }
    ensures quiet { (w : Progress) (base : Image) → w.done ≡ 0 → Stands w base (D.state dev.now) → IsQuiet (D.state dev.now) }
    ensures ends { (w : Progress) (n : ℕ) (base : Image) (chain : List Txn) (p : LogPlan) → Commits w n base chain p → w.part ≡ 4 → w.done ≡ 0 → Stands w base (D.state dev.now)
        → EndsQuiet n base chain p (D.state dev.now) }
    ensures begins_reading { (w : Progress) → TellsReads (D.state dev.now) → w.part ≡ 0 → w.done ≡ 0 → ReadsAs w (D.state dev.now).seen (D.state dev.now) }
    ensures ends_reading { (w : Progress) (n : ℕ) (base : Image) (chain : List Txn) (p : LogPlan) → TellsReads (D.state dev.now) → Commits w n base chain p → w.part ≡ 4 → ReadsAs w base (D.state dev.now)
        → HasLog n (D.state dev.now).seen [] × WithAtom n base chain p (D.state dev.now).seen }
{
    let _ = dev;
}

/// Reads between two steps of a commit change nothing of where its device stands, and nothing of what reading gives
/// (docs/commit.md, "Crashes").
pub fn reads_between_steps<D: Device>(before: &D, after: &D)
    ensures stands { (w : Progress) (base : Image) → Goes (D.state before.now) (D.state after.now) → Untouched (D.state before.now) (D.state after.now)
        → Stands w base (D.state before.now) → Stands w base (D.state after.now) }
    ensures reads { (w : Progress) (base : Image) → Goes (D.state before.now) (D.state after.now) → Untouched (D.state before.now) (D.state after.now)
        → ReadsAs w base (D.state before.now) → ReadsAs w base (D.state after.now) }
{
    let _ = before;
    let _ = after;
}
