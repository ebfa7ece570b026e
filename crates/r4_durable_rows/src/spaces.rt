//! Laws of when blocks are given back (docs/durable.md, "Wrong bodies"). Each is the contract of a
//! function that does nothing.

ghost use Rattle.std.specs.Prelude.{◌≡◌, ◌≢◌, ◌+◌, ◌<◌, ◌≤◌, ℕ, List, [], None, Some, Contains};
ghost use Rattle.std.specs.Prelude.{true, false, length, slice_index_or, slice_set};
ghost use Rattle.r4_base.specs.Bitmap.{is_marked};
ghost use Rattle.r4_base.specs.Chain.{HasLog};
ghost use Rattle.r4_base.specs.Image.{Image, IsBlock, IsImage, block_at};
ghost use Rattle.r4_base.specs.Log.{head_of};
ghost use Rattle.r4_base.specs.Tree.{Node};
ghost use Rattle.r4_base.specs.Value.{Content, Value};
ghost use Rattle.r4_base.specs.Volume.{HasContent, HasVolume, IsLost, Needs};
ghost use Rattle.r4_base.specs.declared.things.AtomNo.{AtomNo};
ghost use Rattle.r4_space.specs.Lawful.{IsLawful};
ghost use Rattle.r4_space.specs.Space.{Space, claims_of, is_claimed, is_marked_by};
ghost use Rattle.r4_space.specs.Space.{is_taken, settled};
ghost use Rattle.r4_space.specs.Space.{unused_count, with_placed};
ghost use Rattle.r4_wander.specs.Kept.{IsVolumeOf};
ghost use Rattle.r4_wander.specs.LogPlan.{first};
ghost use Rattle.r4_wander.specs.Safe.{IsEncoded, IsSafe};
ghost use Rattle.r4_wander.specs.declared.plan.LogPlan.{LogPlan};
ghost use Rattle.r4_commit.specs.Plannable.{is_marked_in};
ghost use Rattle.r4_commit.specs.Planned.{IsUnused, blocks_of};
ghost use Rattle.r4_sealed.specs.Commits.{Commit, IsCommitOn};
ghost use Rattle.r4_durable_rows.specs.Orders.{IsLeft, in_order};
ghost use Rattle.r4_durable_rows.specs.Spaces.{freed_at_once, given_back, headed};
ghost use Rattle.r4_durable_rows.specs.Spaces.{never_given_back};

/// Where a commit settles, each block of its log is unused again (`unused`). Where these stay held
/// they are neither marked nor unused (`gone`), whichever other atom settles (`stays`): each commit
/// leaves the space with fewer unused blocks, by those of its log at least (`fewer`). And a block
/// that is placed for the log, and not held, is marked by the bitmaps of the commit, and so lost
/// (`placed`).
pub fn logs_are_given_back()
    ensures unused { (n : ℕ) (work : Commit) → IsCommitOn n work → (b : ℕ)
        → Contains (blocks_of work.plan) b → is_taken (given_back work) b ≡ false }
    ensures gone { (n : ℕ) (work : Commit) → IsCommitOn n work → (b : ℕ)
        → Contains (blocks_of work.plan) b → (is_marked_in (never_given_back work) b ≡ false)
        × (is_taken (never_given_back work) b ≡ true) }
    ensures stays { (s : Space) (atom other : AtomNo) (b : ℕ) → atom.0 ≢ other.0
        → is_claimed (claims_of atom s.held) b ≡ true
        → is_claimed (claims_of atom (settled s other).held) b ≡ true }
    ensures fewer { (n : ℕ) (work : Commit) → IsCommitOn n work
        → unused_count (never_given_back work) + length (blocks_of work.plan)
        ≤ unused_count (given_back work) }
    ensures placed { (n : ℕ) (image : Image) (m : Content) (d : HasContent n image m) (s : Space)
        (atom : AtomNo) (b : ℕ) → d.super.block_count ≡ s.block_count
        → length s.placed ≡ s.block_count → IsUnused s b
        → is_marked image b ≡ is_marked_by (with_placed s b) atom b → d.store b ≡ None
        → IsLost d b }
{}

/// Where a commit settles as soon as its journal header is synced, the space gives out blocks that
/// the volume still needs (`needed`); and what is written over the head, but for another head,
/// leaves no volume (`no_volume`).
pub fn commits_settle_behind_the_footer()
    ensures needed { (n : ℕ) (work : Commit) → IsCommitOn n work
        → IsSafe n work.base work.chain work.plan → IsEncoded work.plan
        → (m : Content) (v : HasVolume n (headed work) m) (b : ℕ) → Contains (blocks_of work.plan) b
        → Needs v b × (is_taken (given_back work) b ≡ false) }
    ensures no_volume { (n : ℕ) (work : Commit) → IsCommitOn n work
        → IsSafe n work.base work.chain work.plan → IsEncoded work.plan
        → (x : List ℕ) → head_of x ≡ None
        → (m : Content) → HasVolume n (slice_set (headed work) work.plan.head.0 x) m → ⊥ }
{}

/// Where a freed block is unmarked at once, it is unused before its atom is committed (`unused`).
/// And where a cell, or a block of the log, is written over a cell of the old content, a crash may
/// leave an image that has not the cells of the old content (`overwritten`).
pub fn freed_blocks_wait_for_the_commit()
    ensures unused { (s : Space) (b : ℕ) → IsLawful s → b < s.block_count
        → slice_index_or s.placed b false ≡ false → is_claimed s.held b ≡ false
        → is_claimed s.deferred b ≡ false → is_taken (freed_at_once s b) b ≡ false }
    ensures overwritten { (n : ℕ) (base : Image) (m : Content) (c : HasContent n base m)
        (p : LogPlan) (b : ℕ) (x : List ℕ) (e : Node Value) → IsImage n base → HasLog n base []
        → c.store b ≡ Some e → Contains (first p) (b, x) → IsBlock x → x ≢ block_at base b
        → (image : Image) × IsLeft (in_order p) base image × (IsVolumeOf n image base m c → ⊥) }
{}
