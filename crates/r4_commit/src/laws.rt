//! Laws of plans. Each is the contract of a function that does nothing.

ghost use Rattle.std.specs.Prelude.{◌≡◌, ◌≢◌, ℕ, ◌+◌, ◌*◌, ◌/◌, ◌<◌, ◌≤◌, List, [], true, length, Ok, None};
ghost use Rattle.r4_base.specs.Bitmap.{bitmap_count, bitmap_fault, is_marked};
ghost use Rattle.r4_base.specs.Chain.{Txn, flushed};
ghost use Rattle.r4_base.specs.Image.{Image, IsImage, block_at};
ghost use Rattle.r4_base.specs.Layout.{IsLawfulSuper, super_of};
ghost use Rattle.r4_base.specs.Value.{Content};
ghost use Rattle.r4_base.specs.Volume.{HasContent, HasVolume, IsMadeOf, Needs};
ghost use Rattle.r4_base.specs.declared.superblock.Super40.{Super40};
ghost use Rattle.r4_base.specs.declared.things.AtomNo.{AtomNo};
ghost use Rattle.r4_base.specs.declared.things.BlockNo.{BlockNo};
ghost use Rattle.r4_place.specs.r4_cell.Seen.{CellSeen};
ghost use Rattle.r4_space.specs.Space.{Space, is_marked_by};
ghost use Rattle.r4_place.specs.declared.placed.Placed.{Placed};
ghost use Rattle.r4_wander.specs.LogPlan.{first, parts_of};
ghost use Rattle.r4_wander.specs.Parts.{Parts, IsOrderOf};
ghost use Rattle.r4_wander.specs.Progress.{Commits, Progress, calls_from};
ghost use Rattle.r4_wander.specs.Safe.{ByPart, IsEncoded, IsSafe, is_scratch, with_atom};
ghost use Rattle.r4_wander.specs.Torn.{IsTarget};
ghost use Rattle.r4_wander.specs.declared.plan.LogPlan.{LogPlan};
ghost use Rattle.r4_commit.specs.Planned.{IsPlanFor};
ghost use Rattle.r4_commit.specs.Plannable.{IsPlannable, is_spoken_for};
ghost use Rattle.r4_commit.specs.Volumes.{BlocksByPart, VolumeByPart};

/// A plan is safe on an image on which it may be made, where its head is not the one that the journal footer names; where
/// nothing is unflushed it never is (docs/commit.md, "Plans").
pub fn plans_are_safe()
    ensures safe { (n : ℕ) (base : Image) (chain : List Txn) (s : Space) (atom : AtomNo) (cells : List CellSeen) (answers : List Placed) (next : Super40) (last : BlockNo) (p : LogPlan)
        → IsPlanFor s atom cells answers next last p → IsPlannable n base chain s cells answers next last → p.head.0 ≢ flushed base → IsSafe n base chain p }
    ensures alone { (n : ℕ) (base : Image) (s : Space) (atom : AtomNo) (cells : List CellSeen) (answers : List Placed) (next : Super40) (last : BlockNo) (p : LogPlan)
        → IsPlanFor s atom cells answers next last p → IsPlannable n base [] s cells answers next last → IsSafe n base [] p }
{}

/// The volume needs no block of the first part, where each block that it needs is marked, held or deferred
/// (docs/commit.md, "Plans").
pub fn plans_spare_the_volume()
    ensures { (n : ℕ) (base : Image) (chain : List Txn) (s : Space) (atom : AtomNo) (cells : List CellSeen) (answers : List Placed) (next : Super40) (last : BlockNo) (p : LogPlan) (m : Content) (v : HasVolume n base m)
        → IsPlanFor s atom cells answers next last p → IsPlannable n base chain s cells answers next last → ((b : ℕ) → Needs v b → is_spoken_for s b ≡ true)
        → (b : ℕ) → IsTarget (first p) b → Needs v b → ⊥ }
{}

/// No content with the atom's cells is made of a block of the atom's log: the new bitmaps mark none of them
/// (docs/commit.md, "Plans").
pub fn plans_keep_off_the_new_tree()
    ensures { (n : ℕ) (base : Image) (chain : List Txn) (s : Space) (atom : AtomNo) (cells : List CellSeen) (answers : List Placed) (next : Super40) (last : BlockNo) (p : LogPlan) (m : Content) (c : HasContent n (with_atom base chain p) m)
        → IsPlanFor s atom cells answers next last p → IsPlannable n base chain s cells answers next last → (b : ℕ) → is_scratch p b → IsMadeOf c b → ⊥ }
{}

/// The superblock and the bitmaps of the image with the atom's cells are not refused, where the other fields of the
/// superblock are lawful: they are those that the plan has, and as many bits are 0 as `free_blocks` says. What the
/// bitmaps mark is what the space says of the atom's commit (docs/commit.md, "Plans").
pub fn new_bitmaps_are_sound()
    ensures super40 { (n : ℕ) (base : Image) (chain : List Txn) (s : Space) (atom : AtomNo) (cells : List CellSeen) (answers : List Placed) (next : Super40) (last : BlockNo) (p : LogPlan)
        → IsPlanFor s atom cells answers next last p → IsPlannable n base chain s cells answers next last → IsLawfulSuper n next
        → super_of n (block_at (with_atom base chain p) 17) ≡ Ok (record next { free_blocks = p.free_blocks; flushes = p.id }) }
    ensures bitmaps { (n : ℕ) (base : Image) (chain : List Txn) (s : Space) (atom : AtomNo) (cells : List CellSeen) (answers : List Placed) (next : Super40) (last : BlockNo) (p : LogPlan)
        → IsPlanFor s atom cells answers next last p → IsPlannable n base chain s cells answers next last → bitmap_fault s.block_count p.free_blocks (with_atom base chain p) ≡ None }
    ensures marks { (n : ℕ) (base : Image) (chain : List Txn) (s : Space) (atom : AtomNo) (cells : List CellSeen) (answers : List Placed) (next : Super40) (last : BlockNo) (p : LogPlan)
        → IsPlanFor s atom cells answers next last p → IsPlannable n base chain s cells answers next last → (b : ℕ) → b < s.block_count → is_marked (with_atom base chain p) b ≡ is_marked_by s atom b }
{}

/// How many writes and syncs the commit of so many cells makes at most, on a volume of so many bitmaps
/// (docs/commit.md, "Plans").
pub fn commits_are_bounded()
    ensures { (s : Space) (atom : AtomNo) (cells : List CellSeen) (answers : List Placed) (next : Super40) (last : BlockNo) (p : LogPlan) (plan : Parts)
        → IsPlanFor s atom cells answers next last p → IsOrderOf (parts_of p) plan
        → calls_from plan 0 ≤ 2 * (length cells + bitmap_count s.block_count + 1) + (length cells + bitmap_count s.block_count + 1 + 253) / 254 + 7 }
{}

/// A plan that was made for an image commits, as the clauses of `step` ask for, where nothing is unflushed (`commits`).
/// What settles by the part that is under way has the old volume or the new one, where each block that the old volume
/// needs is marked, held or deferred (`image`), and with it that volume's superblock, cells and marks (`keeps_blocks`): so
/// its next object id and its lost blocks. So does whatever a crash leaves at any moment of a step: the clause
/// `volumes` of `step` (docs/commit.md, "Plans").
pub fn commit_settles_by_plan()
    ensures commits { (w : Progress) (n : ℕ) (base : Image) (s : Space) (atom : AtomNo) (cells : List CellSeen) (answers : List Placed) (next : Super40) (last : BlockNo) (p : LogPlan)
        → IsPlanFor s atom cells answers next last p → IsPlannable n base [] s cells answers next last → IsEncoded p → IsOrderOf (parts_of p) w.plan → Commits w n base [] p }
    ensures image { (i n : ℕ) (base image : Image) (chain : List Txn) (s : Space) (atom : AtomNo) (cells : List CellSeen) (answers : List Placed) (next : Super40) (last : BlockNo) (p : LogPlan) (m : Content) (v : HasVolume n base m)
        → IsPlanFor s atom cells answers next last p → IsPlannable n base chain s cells answers next last → p.head.0 ≢ flushed base → ((b : ℕ) → Needs v b → is_spoken_for s b ≡ true)
        → IsImage n image → ByPart n base chain p i image → VolumeByPart n base chain p m i image }
    ensures keeps_blocks { (i n : ℕ) (base image : Image) (chain : List Txn) (s : Space) (atom : AtomNo) (cells : List CellSeen) (answers : List Placed) (next : Super40) (last : BlockNo) (p : LogPlan) (m : Content) (v : HasVolume n base m)
        → IsPlanFor s atom cells answers next last p → IsPlannable n base chain s cells answers next last → p.head.0 ≢ flushed base → ((b : ℕ) → Needs v b → is_spoken_for s b ≡ true)
        → IsImage n image → ByPart n base chain p i image → BlocksByPart n base chain p m v i image }
{}
