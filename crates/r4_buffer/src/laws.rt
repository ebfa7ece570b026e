//! Laws of the cells in memory. Each is the contract of a function that does nothing.

ghost use Rattle.std.specs.Prelude.{◌≡◌, ◌≢◌, ◌↔◌, ℕ, List, Contains, Some, true};
ghost use Rattle.r4_base.specs.declared.things.NodeId.{NodeId};
ghost use Rattle.r4_search.specs.r4_cell.Seen.{CellSeen};
ghost use Rattle.r4_buffer.specs.Seen.{BufferSeen, EntrySeen, IsCaptured, IsLawful, Stays, StandsAs, buffered, is_above_dirty, is_captured};
ghost use Rattle.r4_buffer.specs.Changed.{cleaned, forgotten, in_turn, renamed, swept, unused, used};

/// A name is captured exactly where its entry is dirty, or by level and range an ancestor of an
/// entry that is dirty.
pub fn captured_law()
    ensures { (b : BufferSeen) (i : ℕ) → IsLawful b → (is_captured b i ≡ true) ↔ IsCaptured b i }
{}

/// Each ancestor of a dirty cell stays, by its level and range, through every call but `put`;
/// through `use_all` where the cells under its name have its level and range, and through `rename`
/// where it is not the one that is renamed.
pub fn ancestors_law()
    ensures used { (i : ℕ) (e : EntrySeen) (met : List CellSeen)
        → ((c : CellSeen) → Contains met c → c.id ≡ i → StandsAs e.cell c)
        → Stays e (in_turn used met i (Some e)) }
    ensures unused { (i : ℕ) (e : EntrySeen) (ids : List NodeId)
        → Stays e (in_turn unused ids i (Some e)) }
    ensures cleaned { (i : ℕ) (e : EntrySeen) (ids : List NodeId)
        → Stays e (in_turn cleaned ids i (Some e)) }
    ensures renamed { (b : BufferSeen) (i from : ℕ) (e : EntrySeen) (c : CellSeen)
        → buffered b i ≡ Some e → i ≢ from → Stays e (renamed b from c i) }
    ensures forgotten { (b : BufferSeen) (e : EntrySeen)
        → is_above_dirty b e.cell ≡ true → Stays e (forgotten b (Some e)) }
    ensures swept { (b : BufferSeen) (e : EntrySeen)
        → is_above_dirty b e.cell ≡ true → Stays e (swept b (Some e)) }
{}
