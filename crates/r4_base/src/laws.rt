//! Laws of the definitions. Each is the contract of a function that does nothing.

ghost use Rattle.std.specs.Prelude.{◌≡◌, ◌≢◌, ◌⊎◌, ◌↔◌, ℕ, ◌+◌, ◌^◌, ◌<◌, ◌≤◌, List, length, slice_index, Contains, Ok};
ghost use Rattle.r4_base.specs.Bytes.{number_at, number_bytes, overwrite};
ghost use Rattle.r4_base.specs.Image.{Image, block_at, put_pairs, AgreesOutside};
ghost use Rattle.r4_base.specs.Chain.{Txn, HasLog, Settles, SettlesTo, chain_pairs, originals, kept_blocks, home, committed, flushed};
ghost use Rattle.r4_base.specs.Refusal.{Refusal, log_of, IsRefused};

/// A number that is written is read, and a write of bytes changes just those bytes.
pub fn number_law()
    ensures read { (n at v : ℕ) (xs : List ℕ) → at + n ≤ length xs → v < 256 ^ n → number_at n at (overwrite at (number_bytes n v) xs) ≡ v }
    ensures length { (at : ℕ) (ys xs : List ℕ) → at + length ys ≤ length xs → length (overwrite at ys xs) ≡ length xs }
    ensures elsewhere { (at : ℕ) (ys xs : List ℕ) (k : ℕ) → at + length ys ≤ length xs → (k < at) ⊎ (at + length ys ≤ k) → slice_index (overwrite at ys xs) k ≡ slice_index xs k }
{}

/// The chain that is found block by block is the one that the relation names; an image has one log at most, and a log
/// that is refused is none.
pub fn log_law()
    ensures found { (n : ℕ) (image : Image) (chain : List Txn) → HasLog n image chain
        ↔ ((log_of n image ≡ Ok chain) × ((b : ℕ) → Contains (originals chain) b → Contains (kept_blocks chain) b → ⊥)) }
    ensures one { (n : ℕ) (image : Image) (chain other : List Txn) → HasLog n image chain → HasLog n image other → chain ≡ other }
    ensures refused { (n : ℕ) (image : Image) (chain : List Txn) (r : Refusal) → HasLog n image chain → IsRefused n image r → ⊥ }
{}

/// What is said of a settled image. An image settles to one image at most, block by block to what stands at each
/// block's home. Once header and footer are equal it settles to itself. A block that no log needs may hold anything.
pub fn settled_law()
    ensures one { (n : ℕ) (image settled other : Image) → Settles n image settled → Settles n image other → settled ≡ other }
    ensures homes { (n b : ℕ) (image : Image) (chain : List Txn) → HasLog n image chain → b < length image
        → block_at (put_pairs (chain_pairs chain) image) b ≡ block_at image (home (chain_pairs chain) b) }
    ensures again { (n : ℕ) (image : Image) → committed image ≡ flushed image → Settles n image image }
    ensures free { (n b : ℕ) (image other : Image) (chain : List Txn) → HasLog n image chain → AgreesOutside (λ c. c ≡ b) image other → b ≢ 19 → b ≢ 20
        → (Contains (kept_blocks chain) b → ⊥) → SettlesTo n (λ c. c ≡ b) (put_pairs (chain_pairs chain) image) other }
{}
