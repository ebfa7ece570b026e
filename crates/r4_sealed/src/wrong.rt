//! What a commit can not leave out (docs/durable.md). Each law is the contract of a function that does nothing.

ghost use Rattle.std.specs.Prelude.{◌≡◌, ◌≢◌, ◌⊎◌, ℕ, true, false, Some, None};
ghost use Rattle.r4_base.specs.Tree.{Node};
ghost use Rattle.r4_base.specs.Value.{Content, Value};
ghost use Rattle.r4_base.specs.Volume.{HasContent, IsLost, objects_in};
ghost use Rattle.r4_commit.specs.r4_space.Space.{is_marked_by};
ghost use Rattle.r4_sealed.specs.Commits.{Commit, IsCommitOn, image_after, image_before, is_freed};
ghost use Rattle.r4_sealed.specs.Commits.{super_after};
ghost use Rattle.r4_sealed.specs.Written.{IsSpaceOf};

/// Whatever content the image with the atom has, its superblock is the one that the plan writes (`super40`). So its
/// root is the one that `next` names: with the root of the cells in memory it has the cells in memory, or no content
/// (`root`). Its number of files is the one that `next` counts: where the objects that were made are not counted, it
/// has no content with them (`count`). And each of its cells stands on a block that the space has marked or placed and
/// does not free: a placed block that is not marked has no cell (`marked`).
pub fn new_contents_are_as_planned()
    ensures super40 { (n : ℕ) (work : Commit) (m : Content) (d : HasContent n (image_after work) m)
        → IsCommitOn n work → d.super ≡ super_after work }
    ensures root { (n : ℕ) (work : Commit) (m : Content) (d : HasContent n (image_after work) m)
        → IsCommitOn n work
        → (c : Node Value) × (d.store work.next.root_block ≡ Some c)
        × (c.level ≡ work.next.tree_height) }
    ensures count { (n : ℕ) (work : Commit) (m : Content) → HasContent n (image_after work) m
        → IsCommitOn n work → work.next.file_count ≡ objects_in m }
    ensures marked { (n : ℕ) (work : Commit) (m : Content) (d : HasContent n (image_after work) m)
        → IsCommitOn n work → (b : ℕ) → is_marked_by work.space work.atom b ≡ false
        → d.store b ≡ None }
{}

/// A block that had a cell, and has none any more, is lost where the commit does not free it; and it was not lost
/// before.
pub fn freed_blocks_have_to_be_deferred()
    ensures lost { (n : ℕ) (work : Commit) (o m : Content) (c : HasContent n (image_before work) o)
        (d : HasContent n (image_after work) m) (b : ℕ) (e : Node Value) → IsCommitOn n work
        → IsSpaceOf c work.space → c.store b ≡ Some e → d.store b ≡ None
        → is_freed work.space work.atom b ≡ false → IsLost d b }
    ensures not_before { (n : ℕ) (work : Commit) (o : Content)
        (c : HasContent n (image_before work) o)
        (b : ℕ) (e : Node Value) → c.store b ≡ Some e → IsLost c b → ⊥ }
{}
