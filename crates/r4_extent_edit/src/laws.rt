//! Laws of edits of twigs. Each is the contract of a function that does nothing.

ghost use Rattle.std.specs.Prelude.{◌≡◌, ◌⊎◌, ℕ, ◌≤◌, [], List, Contains, Option, reverse};
ghost use Rattle.r4_base.specs.Node.{Item};
ghost use Rattle.r4_base.specs.Tree.{IsData, Name, Root, Span, Store};
ghost use Rattle.r4_base.specs.Value.{Value};
ghost use Rattle.r4_work.specs.r4_cell.Seen.{CellSeen, node_of};
ghost use Rattle.r4_work.specs.r4_cell.declared.change.Change.{Change};
ghost use Rattle.r4_work.specs.r4_cell.declared.change.Fresh.{Fresh};
ghost use Rattle.r4_work.specs.r4_edit.CutBlocks.{CutsUp, IsCutUp};
ghost use Rattle.r4_work.specs.r4_edit.Extents.{IsLeafPutUp, IsOverUp, IsSpreadUp, PutsLeafUp, PutsOverUp};
ghost use Rattle.r4_work.specs.r4_edit.Extents.{SpreadsUp, item_blocks};
ghost use Rattle.r4_extent_edit.specs.Effects.{EditsUnits, IsMadeIn, MayStandUp, extent_values};
ghost use Rattle.r4_extent_edit.specs.Effects.{item_keys, leaf_values, no_values, own_keys};
ghost use Rattle.r4_extent_edit.specs.Setting.{AreHoles};
ghost use Rattle.r4_extent_edit.specs.Spans.{AreOfSpan, AreWholeBlocks};
ghost use Rattle.r4_work.specs.r4_leaf.Units.{is_between};
ghost use Rattle.r4_work.specs.r4_path.Grafts.{AreBlocksOf};

/// Keys of one extent, from one border of its blocks up to another: no leaf has one of them, and of
/// a data block either all keys are among them or none. So they may be cut out of a twig, and the
/// blocks that go are those that begin there. Where no data block has one of them, there are holes
/// or nothing, and an extent may be set in their place.
pub fn keys_of_a_span_may_be_cut()
    ensures whole { (twig : CellSeen) (s : Span) (from to : ℕ) → AreOfSpan twig s from to
        → AreWholeBlocks twig from to }
    ensures holes { (twig : CellSeen) (s : Span) (from to : ℕ) → AreOfSpan twig s from to
        → ((n : Name) → Contains (node_of twig).names n → IsData n
        → (n.hi ≤ from) ⊎ (to ≤ n.lo)) → AreHoles twig from to }
{}

/// What `insert` of r4_edit does to units, as a property of its change alone: an extent among
/// extents or over a leaf stands at its keys, with the bytes of its blocks; an item among extents
/// stands at its own keys, in a leaf. What stood elsewhere stays as it was, in leaves where it
/// stood in leaves.
pub fn insert_edits_units()
    ensures spread { (t : Store Value) (r : Root) (path : List CellSeen) (it : Item)
        (before after : Fresh) (c : Change) (blocks : List CellSeen)
        → AreBlocksOf (item_blocks it) blocks → IsMadeIn t r c blocks
        → IsSpreadUp t r it before (reverse path) → SpreadsUp path it before after c (reverse path)
        → EditsUnits c blocks before after (item_keys it) (extent_values it blocks) }
    ensures over { (t : Store Value) (r : Root) (path : List CellSeen) (it : Item)
        (before after : Fresh) (c : Change) (blocks : List CellSeen)
        → AreBlocksOf (item_blocks it) blocks → IsMadeIn t r c blocks
        → IsOverUp t r it before (reverse path) → PutsOverUp path it before after c (reverse path)
        → EditsUnits c blocks before after (item_keys it) (extent_values it blocks) }
    ensures apart { (t : Store Value) (r : Root) (path : List CellSeen) (it : Item)
        (before after : Fresh) (c : Change) → IsMadeIn t r c []
        → IsLeafPutUp t r it before (reverse path)
        → PutsLeafUp path it before after c (reverse path)
        → EditsUnits c [] before after (own_keys it) (leaf_values it) }
{}

/// What `cut` of r4_edit does to units where blocks go out of the extents of a twig, as a property
/// of its change alone: nothing stands at the keys, padding of the blocks included, and elsewhere
/// what stood there.
pub fn cut_edits_units()
    ensures { (t : Store Value) (r : Root) (path : List CellSeen) (leaf : Option CellSeen)
        (blocks : List CellSeen) (from to : ℕ) (before after : Fresh) (c : Change)
        → IsMadeIn t r c [] → MayStandUp (reverse path)
        → IsCutUp t r leaf blocks from to before (reverse path)
        → CutsUp path leaf blocks from to before after c (reverse path)
        → EditsUnits c [] before after (is_between from to) no_values }
{}
