//! The worked session (docs/sets.md, "A worked session").

ghost use Rattle.std.specs.Prelude.{◌≡◌, ℕ, Some, None};
ghost use Rattle.r4_base.specs.Volume.{root_attr};
ghost use Rattle.r4_content.specs.Locality.{commands};
ghost use Rattle.r4_trace.specs.Folds.{content_of};
ghost use Rattle.r4_trace.specs.Order.{IsOrdered};
ghost use Rattle.r4_sets.specs.Change.{Applies};
ghost use Rattle.r4_sets.specs.Session.{Sets, all_done, in_base, in_under};
ghost use Rattle.r4_sets_rows.specs.Small.{alone, changing, chmod, leaf_with};
ghost use Rattle.r4_sets_rows.specs.Worked.{Blocks, leaf_captured, mode_700, mode_750, mode_770};
ghost use Rattle.r4_sets_rows.specs.Worked.{one_committed, third_began, two_began, two_fused};

/// Two transactions change the mode of the root directory, one after the other: the second needs the leaf that the
/// first one's atom has, so both atoms become one. It is sealed, and while it is written a third transaction changes
/// the mode, by a leaf of its own. Each of the three changes is one that may be made.
pub fn three_changes()
    ensures first { (limit : ℕ) (b : Blocks) → Applies (commands limit) (two_began b) 1
        (chmod 0o700) (changing b.first b.second root_attr mode_700) }
    ensures second { (limit : ℕ) (b : Blocks) → Applies (commands limit) (two_fused limit b) 2
        (chmod 0o750) (changing b.second b.third mode_700 mode_750) }
    ensures third { (limit : ℕ) (b : Blocks) → Applies (commands limit) (third_began limit b) 3
        (chmod 0o770) (changing b.third b.fourth mode_750 mode_770) }
{}

/// In the end there are three leaves of one number: the committed one, that of the sealed atom, and that of the third
/// one's, with three modes. Each set of atoms means what it should, also when the sealed atom is committed.
pub fn three_layers()
    ensures sets { (limit : ℕ) (b : Blocks) → Sets (commands limit) (leaf_captured limit b) }
    ensures later { (limit clock : ℕ) (b : Blocks)
        → Sets (commands limit) (one_committed limit clock b) }
    ensures order { (limit clock : ℕ) (b : Blocks) → IsOrdered (one_committed limit clock b).trace }
    ensures free { (limit : ℕ) (b : Blocks) → (third_began limit b).owner 23 ≡ None }
    ensures captured { (limit : ℕ) (b : Blocks) → (leaf_captured limit b).owner 23 ≡ Some 3 }
    ensures leaf { (limit : ℕ) (b : Blocks)
        → (leaf_captured limit b).base.cells 23 ≡ Some (leaf_with b.first root_attr) }
    ensures sealed_leaf { (limit : ℕ) (b : Blocks)
        → (leaf_captured limit b).under.cells 23 ≡ Some (leaf_with b.third mode_750) }
    ensures own_leaf { (limit : ℕ) (b : Blocks)
        → (leaf_captured limit b).memory 23 ≡ Some (leaf_with b.fourth mode_770) }
    ensures committed { (limit : ℕ) (b : Blocks) → content_of (commands limit) (alone root_attr)
        (in_base (leaf_captured limit b)) (leaf_captured limit b).trace ≡ alone root_attr }
    ensures sealed { (limit : ℕ) (b : Blocks) → content_of (commands limit) (alone root_attr)
        (in_under (leaf_captured limit b)) (leaf_captured limit b).trace ≡ alone mode_750 }
    ensures memory { (limit : ℕ) (b : Blocks)
        → all_done (commands limit) (leaf_captured limit b) ≡ alone mode_770 }
    ensures committed_later { (limit clock : ℕ) (b : Blocks)
        → content_of (commands limit) (alone root_attr) (in_base (one_committed limit clock b))
        (one_committed limit clock b).trace ≡ alone mode_750 }
{}
