//! Laws of the names of cells and of the blocks that they get (docs/durable.md). Each is the contract of a function
//! that does nothing.

ghost use Rattle.std.specs.Prelude.{◌≡◌, ◌≢◌, ◌≤◌, ◌<◌, ◌^◌, ℕ, Contains, true, false, Some, slice_index_or};
ghost use Rattle.r4_base.specs.Node.{items_of};
ghost use Rattle.r4_base.specs.Tree.{Node};
ghost use Rattle.r4_base.specs.Value.{Content, Value};
ghost use Rattle.r4_sealed.specs.r4_cell.Seen.{CellSeen, node_of};
ghost use Rattle.r4_sealed.specs.r4_place.Chosen.{fresh_blocks, placed_all};
ghost use Rattle.r4_sealed.specs.r4_sets.Renaming.{IsRenamed};
ghost use Rattle.r4_sealed.specs.Commits.{spot};
ghost use Rattle.r4_sealed.specs.Written.{IsSpaceOf};
ghost use Rattle.r4_placed.specs.Flushing.{Flushing, IsAtRest, name_after};
ghost use Rattle.r4_placed.specs.RenamedItems.{AreItemsRenamed};

/// The space with the chosen blocks placed still has the blocks of the content (`space`). A cell with a block stands
/// there (`old`), and one without on a fresh block (`fresh`); and on each block that is placed then stands one of these
/// (`spots`).
pub fn cells_have_places()
    ensures space { (n : ℕ) (work : Flushing) (m : Content) (r : IsAtRest n work m)
        → IsSpaceOf r.content (placed_all work.space work.answers) }
    ensures old { (n : ℕ) (work : Flushing) (m : Content) → IsAtRest n work m → (x : CellSeen)
        → Contains work.cells x → x.id < 2 ^ 63 → spot work.answers x ≡ x.id }
    ensures fresh { (n : ℕ) (work : Flushing) (m : Content) → IsAtRest n work m → (x : CellSeen)
        → Contains work.cells x → 2 ^ 63 ≤ x.id
        → Contains (fresh_blocks work.answers) (spot work.answers x) }
    ensures spots { (n : ℕ) (work : Flushing) (m : Content) → IsAtRest n work m → (b : ℕ)
        → slice_index_or (placed_all work.space work.answers).placed b false ≡ true
        → (x : CellSeen) × Contains work.cells x × (2 ^ 63 ≤ x.id) × (spot work.answers x ≡ b) }
{}

/// The names of an atom's cells change places with their blocks: done twice, each name is as it was (`twice`). A cell
/// gets the name of its block (`cell`), and a committed cell that is none of the atom's keeps its own (`others`).
pub fn names_become_blocks()
    ensures twice { (n : ℕ) (work : Flushing) (m : Content) → IsAtRest n work m → (i : ℕ)
        → name_after work (name_after work i) ≡ i }
    ensures cell { (n : ℕ) (work : Flushing) (m : Content) → IsAtRest n work m → (x : CellSeen)
        → Contains work.cells x → name_after work x.id ≡ spot work.answers x }
    ensures others { (n : ℕ) (work : Flushing) (m : Content) (r : IsAtRest n work m) (i : ℕ)
        (d : Node Value) → r.content.store i ≡ Some d
        → ((x : CellSeen) → Contains work.cells x → x.id ≡ i → ⊥) → name_after work i ≡ i }
{}

/// A cell whose block has the items of another one, with what they name renamed, is that cell renamed.
pub fn renamed_blocks_are_cells()
    ensures { (f : ℕ → ℕ) (x y : CellSeen) → y.level ≡ x.level → y.lo ≡ x.lo → y.hi ≡ x.hi
        → (x.level ≡ 0 → y.block ≡ x.block)
        → (x.level ≢ 0 → AreItemsRenamed f (items_of x.block) (items_of y.block))
        → IsRenamed f (node_of x) (node_of y) }
{}
