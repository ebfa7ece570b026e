//! That what the laws ask for can be met. It is the contract of a function that does nothing.

ghost use Rattle.std.specs.Prelude.{◌≡◌, ℕ, List, [], false, length};
ghost use Rattle.r4_base.specs.Bytes.{number_bytes};
ghost use Rattle.r4_base.specs.Fresh.{HasOneItem};
ghost use Rattle.r4_base.specs.Stat.{stat_body};
ghost use Rattle.r4_base.specs.Volume.{root_attr};
ghost use Rattle.r4_search.specs.r4_cell.Patch.{by_name};
ghost use Rattle.r4_content.specs.declared.command.Command.TheVariants.{Chmod};
ghost use Rattle.r4_build.specs.r4_reach.Touched.{edits_on};
ghost use Rattle.r4_build.specs.r4_measure.Examples.{fresh_cells, fresh_root};
ghost use Rattle.r4_build.specs.Building.{HaveLawfulKeys};
ghost use Rattle.r4_spared.specs.Examples.{root_seen};
ghost use Rattle.r4_spared.specs.Spared.{ChangesLeaves, MayStandAll};

/// The two cells of a fresh volume may stand, and hold all keys in leaves that a new mode of its
/// root changes.
pub fn fresh_volumes_have_leaves()
    ensures cells { (twig leaf : List ℕ) → HasOneItem twig 2 3 (number_bytes 8 23)
        → HasOneItem leaf 1 0 (stat_body root_attr) → length twig ≡ 4096 → length leaf ≡ 4096
        → MayStandAll (fresh_cells twig leaf) }
    ensures command { (twig leaf : List ℕ) (mode : ℕ) → HasOneItem twig 2 3 (number_bytes 8 23)
        → HasOneItem leaf 1 0 (stat_body root_attr) → length twig ≡ 4096 → length leaf ≡ 4096
        → ChangesLeaves (Chmod [] mode) root_seen false (by_name (fresh_cells twig leaf))
        fresh_root }
    ensures keys { (mode : ℕ) → HaveLawfulKeys (edits_on (Chmod [] mode) root_seen) }
{}
