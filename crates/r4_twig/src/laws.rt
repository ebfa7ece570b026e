//! Laws of extents. Each is the contract of a function that does nothing.

ghost use Rattle.std.specs.Prelude.{◌≡◌, ◌↔◌, ℕ, ◌+◌, ◌*◌, ◌%◌, ◌^◌, ◌<◌, ◌≤◌, List, Bool, true, length, slice_get, None};
ghost use Rattle.std.specs.Option.{ForSome};
ghost use Rattle.r4_base.specs.declared.items.Unit.{Unit as ExtentUnit};
ghost use Rattle.r4_base.specs.Extents.{AreApart, AreLawfulUnits, IsLawfulUnit, WidthsFit, block_of_byte, blocks_in, body_fault, cut_at, joined, unit_fault, units_of};

/// A body has no fault exactly where it has a unit at least, ends with one, and each is lawful. A unit has none exactly where it is
/// lawful. A body that is accepted on a volume is accepted in memory on any larger one.
pub fn fault_law()
    ensures body { (in_memory : Bool) (blocks : ℕ) (b : List ℕ) → (body_fault in_memory blocks b ≡ None)
        ↔ ((0 < length b) × (length b % 16 ≡ 0) × AreLawfulUnits in_memory blocks (units_of b)) }
    ensures unit { (in_memory : Bool) (blocks i : ℕ) (u : ExtentUnit) → (unit_fault in_memory blocks i u ≡ None) ↔ IsLawfulUnit in_memory blocks u }
    ensures larger { (in_memory : Bool) (blocks more : ℕ) (b : List ℕ) → blocks ≤ more → body_fault in_memory blocks b ≡ None → body_fault true more b ≡ None }
{}

/// Cutting a unit in two changes no byte's block, nor how many blocks there are.
pub fn cut_law()
    ensures bytes { (us : List ExtentUnit) (i k b : ℕ) → ForSome (slice_get us i) (λ u. k ≤ u.width) → block_of_byte (cut_at i k us) b ≡ block_of_byte us b }
    ensures blocks { (us : List ExtentUnit) (i k : ℕ) → ForSome (slice_get us i) (λ u. k ≤ u.width) → blocks_in (cut_at i k us) ≡ blocks_in us }
    ensures units { (us : List ExtentUnit) (i k : ℕ) → i < length us → length (cut_at i k us) ≡ length us + 1 }
{}

/// Making units one changes no byte's block, nor how many blocks there are, and leaves no two neighbours that go on. The
/// widths can be written where the number of blocks can.
pub fn join_law()
    ensures bytes { (us : List ExtentUnit) (b : ℕ) → block_of_byte (joined us) b ≡ block_of_byte us b }
    ensures blocks { (us : List ExtentUnit) → blocks_in (joined us) ≡ blocks_in us }
    ensures apart { (us : List ExtentUnit) → AreApart (joined us) }
    ensures units { (us : List ExtentUnit) → length (joined us) ≤ length us }
    ensures fits { (us : List ExtentUnit) → blocks_in us < 2 ^ 64 → WidthsFit (joined us) }
{}
