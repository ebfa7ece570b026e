//! That `change_of` may be asked for. It is the contract of a function that does nothing.

ghost use Rattle.std.specs.Prelude.{◌≡◌, ℕ, List, [], None, true};
ghost use Rattle.r4_base.specs.Bytes.{number_bytes};
ghost use Rattle.r4_base.specs.Fresh.{HasOneItem};
ghost use Rattle.r4_base.specs.Stat.{kind_is_good, stat_body};
ghost use Rattle.r4_base.specs.Volume.{root_attr};
ghost use Rattle.r4_base.specs.declared.items.Attr.{Attr};
ghost use Rattle.r4_measure.specs.r4_cell.Patch.{by_name};
ghost use Rattle.r4_leaf_edits.specs.Suiting.{SuitLeaves};
ghost use Rattle.r4_measure.specs.Examples.{fresh_cells, fresh_root, set_root, some_numbers};
ghost use Rattle.r4_build.specs.Building.{CanBuild};

/// The two cells of a fresh volume are such that its root may get other attributes.
pub fn fresh_volumes_can_be_built_on()
    ensures can { (twig leaf : List ℕ) (a : Attr) → HasOneItem twig 2 3 (number_bytes 8 23)
        → HasOneItem leaf 1 0 (stat_body root_attr)
        → CanBuild None (set_root a) [] (by_name (fresh_cells twig leaf)) fresh_root some_numbers
        (fresh_cells twig leaf) }
    ensures suits { (a : Attr) → kind_is_good a.mode ≡ true → SuitLeaves 16384 (set_root a) }
{}
