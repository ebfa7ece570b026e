//! Laws of a commit and of contents (docs/durable.md). Each is the contract of a function that does nothing.

ghost use Rattle.std.specs.Prelude.{◌≡◌, ◌↔◌, ℕ, [], true, Some};
ghost use Rattle.r4_base.specs.Chain.{HasLog, SettlesTo, is_footer};
ghost use Rattle.r4_base.specs.Image.{Image, IsImage};
ghost use Rattle.r4_base.specs.Tree.{Node, Store};
ghost use Rattle.r4_base.specs.Value.{Content, Value};
ghost use Rattle.r4_base.specs.Volume.{HasContent, IsLost, Needs};
ghost use Rattle.r4_commit.specs.r4_space.Space.{Space};
ghost use Rattle.r4_commit.specs.r4_wander.Kept.{IsVolumeOf};
ghost use Rattle.r4_commit.specs.r4_wander.Safe.{WithAtom};
ghost use Rattle.r4_commit.specs.Plannable.{is_spoken_for};
ghost use Rattle.r4_sealed.specs.Commits.{Commit, IsCommitOn, LeftInPart, image_after, image_before};
ghost use Rattle.r4_sealed.specs.Commits.{super_after};
ghost use Rattle.r4_sealed.specs.Contents.{HasContentWith, HasEither, IsNewTree, IsTreeFor};
ghost use Rattle.r4_sealed.specs.Contents.{RenewsSuper};
ghost use Rattle.r4_sealed.specs.Written.{AreWritten, ComesFrom, IsSpaceOf, StandsAt};

/// Each cell that the commit writes or that stays stands in its block of the image with the atom's cells, and that is
/// a block that a volume may use and does.
pub fn cells_stand_in_the_new_image()
    ensures { (n : ℕ) (work : Commit) (t : Store Value) → IsCommitOn n work → AreWritten work t
        → (i : ℕ) (c : Node Value) → t i ≡ Some c
        → StandsAt work.space.block_count (image_after work) i c }
{}

/// The image with the atom's cells has the content of their tree: with the superblock that the plan writes, and with
/// just these cells.
pub fn new_image_has_content()
    ensures { (n : ℕ) (work : Commit) (t : Store Value) (m : Content) → IsCommitOn n work
        → AreWritten work t → IsNewTree n work t m
        → HasContentWith n (image_after work) (super_after work) t m }
{}

/// The cells of a tree are written or stay, where each is one of the atom's or one of the content before that is not
/// overwritten (`written`). And the superblock that names the tree's root is lawful where the old one was (`tree`).
pub fn trees_of_contents_are_written()
    ensures written { (n : ℕ) (work : Commit) (t : Store Value) (m : Content)
        (c : HasContent n (image_before work) m) → IsSpaceOf c work.space → ComesFrom c work t
        → AreWritten work t }
    ensures tree { (n : ℕ) (work : Commit) (t : Store Value) (o m : Content)
        (c : HasContent n (image_before work) o) → IsCommitOn n work → AreWritten work t
        → RenewsSuper c.super work.next → IsTreeFor work.next t m → IsNewTree n work t m }
{}

/// An image that settles to another one, but for the footer's block, has the volume of each content of that one, with
/// its superblock, its cells and its marks (`volume`); so its next object id is the same, and the same blocks are lost
/// (`alike`).
pub fn settled_images_keep_volumes()
    ensures volume { (n : ℕ) (target image : Image) (m : Content) (c : HasContent n target m)
        → IsImage n image → SettlesTo n is_footer target image → IsVolumeOf n image target m c }
    ensures alike { (n : ℕ) (target image : Image) (m : Content) (c : HasContent n target m)
        (v : IsVolumeOf n image target m c) → (v.volume.content.super.oid ≡ c.super.oid)
        × ((b : ℕ) → IsLost v.volume.content b ↔ IsLost c b) }
{}

/// What the content before is made of, and what its log needs, is spoken for: marked, held or deferred.
pub fn needed_blocks_are_spoken_for()
    ensures { (n : ℕ) (work : Commit) (m : Content) (c : HasContent n (image_before work) m)
        (log : HasLog n work.base work.chain) (whole : IsImage n work.base) → IsCommitOn n work
        → IsSpaceOf c work.space → (b : ℕ)
        → Needs (record { whole = whole; chain = work.chain; log = log; content = c }) b
        → is_spoken_for work.space b ≡ true }
{}

/// By the part that is under way an image has the old content or the new one, each with its superblock and its cells,
/// and its bitmaps mark the same blocks.
pub fn blocks_are_kept()
    ensures { (n : ℕ) (work : Commit) (o m : Content) (c : HasContent n (image_before work) o)
        (d : HasContent n (image_after work) m) → IsCommitOn n work → IsSpaceOf c work.space
        → (i : ℕ) (image : Image) → IsImage n image → LeftInPart n work i image
        → HasEither c d i image }
{}

/// An image that settles as with the atom has the volume of the new content (`ends`). And an image that has the volume
/// of a content, and in which nothing is unflushed, has that content in its blocks, with the same superblock and the
/// same cells; a space that has the blocks of the one has those of the other (`rest`).
pub fn commits_come_to_rest()
    ensures ends { (n : ℕ) (work : Commit) (m : Content) (d : HasContent n (image_after work) m)
        (image : Image) → IsCommitOn n work → IsImage n image
        → WithAtom n work.base work.chain work.plan image
        → IsVolumeOf n image (image_after work) m d }
    ensures rest { (n : ℕ) (target image : Image) (m : Content) (c : HasContent n target m)
        (s : Space) → IsVolumeOf n image target m c → HasLog n image [] → IsSpaceOf c s
        → (h : HasContentWith n image c.super c.store m) × IsSpaceOf h.content s }
{}
