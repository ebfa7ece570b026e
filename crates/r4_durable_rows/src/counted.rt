//! Laws of how many blocks a volume has left (docs/durable.md, "Space comes back"). Each is the
//! contract of a function that does nothing.

ghost use Rattle.std.specs.Prelude.{◌≡◌, ◌+◌, ◌<◌, ℕ, List, [], false, length, slice_index_or};
ghost use Rattle.r4_base.specs.Image.{Image};
ghost use Rattle.r4_base.specs.Value.{Content};
ghost use Rattle.r4_base.specs.Volume.{HasContent, IsLost};
ghost use Rattle.r4_space.specs.Lawful.{IsLawful};
ghost use Rattle.r4_space.specs.Space.{Space, is_claimed, unused_count};
ghost use Rattle.r4_sets.specs.Session.{Session};
ghost use Rattle.r4_sealed.specs.Written.{IsSpaceOf};
ghost use Rattle.r4_durable.specs.Kept.{Rests};
ghost use Rattle.r4_durable.specs.Meaning.{Beginning, WasLost};
ghost use Rattle.r4_durable_rows.specs.Counted.{HasCell, Lists, fixed_count, unmarked_count};

/// The blocks of a volume are those that are not marked, the fixed ones, the lost ones and those of
/// its cells (`volume`); of each kind there is a list (`listed`).
pub fn blocks_are_counted()
    ensures volume { (n : ℕ) (image : Image) (m : Content) (c : HasContent n image m) (s : Space)
        (cells lost : List ℕ) → IsLawful s → IsSpaceOf c s → Lists (HasCell c.store) cells
        → Lists (IsLost c) lost
        → unmarked_count s + fixed_count s + length lost + length cells ≡ s.block_count }
    ensures listed { (n : ℕ) (image : Image) (m : Content) (c : HasContent n image m)
        → (cells : List ℕ) × (lost : List ℕ) × Lists (HasCell c.store) cells
        × Lists (IsLost c) lost }
{}

/// So it is while nothing is under way, with the blocks that were lost at the beginning
/// (`at_rest`): after whatever was made and taken away, a volume of as many cells as before has as
/// many unmarked blocks as before (`again`). Where no block is placed, held or deferred, the unused
/// blocks are those that are not marked (`unused`).
pub fn space_comes_back()
    ensures at_rest { (limit : ℕ) (b : Beginning) (c : Session) (s : Space) (image : Image)
        (cells lost : List ℕ) → Rests limit b c s image → Lists (HasCell c.base.cells) cells
        → Lists (WasLost b) lost
        → unmarked_count s + fixed_count s + length lost + length cells ≡ s.block_count }
    ensures again { (limit : ℕ) (b : Beginning) (c now : Session) (s later : Space)
        (image new : Image) (cells cells_now : List ℕ) → Rests limit b c s image
        → Rests limit b now later new → Lists (HasCell c.base.cells) cells
        → Lists (HasCell now.base.cells) cells_now → later.block_count ≡ s.block_count
        → length cells_now ≡ length cells → unmarked_count later ≡ unmarked_count s }
    ensures unused { (s : Space)
        → ((b : ℕ) → slice_index_or s.placed b false ≡ false)
        → ((b : ℕ) → is_claimed s.held b ≡ false) → ((b : ℕ) → is_claimed s.deferred b ≡ false)
        → unused_count s ≡ unmarked_count s }
{}
