//! The change that begins with a lowest level (docs/volume.md, "Edits").

ghost use Rattle.std.specs.Prelude.{map, reverse, IfOk};
ghost use Rattle.std.specs.Arc.{arc_value};
ghost use Rattle.r4_path.specs.Levels.{CanClimb, Rises, step_of};
ghost use Rattle.r4_path.specs.Steps.{OnlyTakes};

use crate::climbing::climb;
use crate::gathering::gather;
use crate::level::Level;
use r4_base::Memory;
use r4_patch::{Cell, Change, Fresh};
use std::alloc::Global;
use std::sync::Arc;

/// The change that has this lowest level and those above it that it asks for, where the cells above are those of a path,
/// given from the top down.
pub fn rise(
    alloc: Global,
    above: &[Arc<Cell>],
    lowest: Level,
    fresh: &mut Fresh,
) -> Result<Change, Memory>
    requires { CanClimb (step_of lowest) (reverse (map (λ c. arc_value c) above.now)) fresh.old }
    ensures rises { IfOk result (λ c.
        Rises (step_of lowest) (reverse (map (λ x. arc_value x) above.now)) fresh.old fresh.new c) }
    ensures numbers { OnlyTakes fresh.old fresh.new }
{
    let mut levels = Vec::new(alloc);
    let over = climb(alloc, above, lowest, fresh, &mut levels)?;
    gather(alloc, levels.as_slice(), over)
}
