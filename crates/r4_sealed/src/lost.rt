//! Laws of lost blocks, and of the space after a commit (docs/durable.md). Each is the contract of a function that
//! does nothing.

ghost use Rattle.std.specs.Prelude.{◌≡◌, ◌⊎◌, ◌↔◌, ℕ, [], ◌∷◌};
ghost use Rattle.r4_base.specs.Image.{Image};
ghost use Rattle.r4_base.specs.Value.{Content};
ghost use Rattle.r4_base.specs.Volume.{HasContent, IsLost};
ghost use Rattle.r4_base.specs.declared.things.AtomNo.{AtomNo};
ghost use Rattle.r4_commit.specs.r4_space.Space.{Space, claims_of, is_claimed, settled};
ghost use Rattle.r4_sealed.specs.Commits.{Commit, IsCommitOn, IsLater, image_after, image_before};
ghost use Rattle.r4_sealed.specs.Commits.{is_freed};
ghost use Rattle.r4_sealed.specs.Written.{Frees, IsSpaceOf};

/// Exactly the blocks that were lost before a commit are lost after it, where it frees exactly the blocks that have no
/// cell any more (`commits`). And contents with the same superblock, the same cells and one space have the same
/// (`same`).
pub fn lost_blocks_stay()
    ensures commits { (n : ℕ) (work : Commit) (o m : Content)
        (c : HasContent n (image_before work) o)
        (d : HasContent n (image_after work) m) → IsCommitOn n work → IsSpaceOf c work.space
        → d.super.block_count ≡ work.space.block_count → Frees c work d.store
        → (b : ℕ) → IsLost c b ↔ IsLost d b }
    ensures same { (n : ℕ) (one two : Image) (o m : Content) (c : HasContent n one o)
        (d : HasContent n two m) (s : Space) → d.super ≡ c.super → d.store ≡ c.store → IsSpaceOf c s
        → IsSpaceOf d s → (b : ℕ) → IsLost c b ↔ IsLost d b }
{}

/// Once the atom's commit settles, the space has the blocks of the new content (`space`). Where no other atom is
/// sealed, what an atom frees is what is deferred for it (`freed`).
pub fn space_settles()
    ensures space { (n : ℕ) (work : Commit) (m : Content) (d : HasContent n (image_after work) m)
        (later : Space) → IsCommitOn n work → d.super.block_count ≡ work.space.block_count
        → IsLater work.space later work.atom → IsSpaceOf d (settled later work.atom) }
    ensures freed { (s : Space) (atom : AtomNo) → (s.sealed ≡ []) ⊎ (s.sealed ≡ atom ∷ [])
        → (b : ℕ) → is_freed s atom b ≡ is_claimed (claims_of atom s.deferred) b }
{}
