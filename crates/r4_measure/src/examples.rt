//! That what the laws ask for can be met. It is the contract of a function that does nothing.

ghost use Rattle.std.specs.Prelude.{ℕ, List, [], None};
ghost use Rattle.r4_base.specs.Bytes.{number_bytes};
ghost use Rattle.r4_base.specs.Fresh.{HasOneItem};
ghost use Rattle.r4_base.specs.Stat.{stat_body};
ghost use Rattle.r4_base.specs.Volume.{root_attr};
ghost use Rattle.r4_base.specs.declared.items.Attr.{Attr};
ghost use Rattle.r4_reach.specs.r4_cell.Patch.{by_name};
ghost use Rattle.r4_content.specs.Edited.{changed};
ghost use Rattle.r4_measure.specs.Begin.{IsReachedFor};
ghost use Rattle.r4_measure.specs.Examples.{fresh_cells, fresh_root, set_root, some_numbers};

/// The two cells of a fresh volume are all that its root's new attributes reach.
pub fn fresh_volumes_are_reached()
    ensures { (twig leaf : List ℕ) (a : Attr) → HasOneItem twig 2 3 (number_bytes 8 23)
        → HasOneItem leaf 1 0 (stat_body root_attr)
        → IsReachedFor None (set_root a) [] (changed (set_root a)) (by_name (fresh_cells twig leaf))
        fresh_root some_numbers (fresh_cells twig leaf) }
{}
