//! A root over a twig alone: a path of a tree of three levels.

ghost use Rattle.std.specs.Prelude.{◌<◌, ◌+◌, ◌≡◌, IfOk, map};
ghost use Rattle.std.specs.Arc.{arc_value};
ghost use Rattle.r4_extent_edit_tests.specs.Raised.{IsRaised, MayBeBelow};

use r4_base::Memory;
use r4_cell::{Cell, Fresh};
use r4_path::root_over;
use std::alloc::Global;
use std::sync::Arc;

/// The path of a root over a twig alone, and of the twig.
pub(crate) fn raised(
    alloc: Global,
    twig: &Arc<Cell>,
    fresh: &mut Fresh,
) -> Result<Vec<Arc<Cell>>, Memory>
    requires twig { MayBeBelow (arc_value twig.now) }
    requires number { fresh.old.next < fresh.old.end }
    ensures path { IfOk result (λ p. IsRaised (arc_value twig.now) fresh.old.next
        (map (λ c. arc_value c) p.items)) }
    ensures fresh { IfOk result (λ p. fresh.new ≡ record fresh.old { next = fresh.old.next + 1 }) }
{
    let below = [Arc::try_clone(twig)?];
    let root = root_over(alloc, &below, 2, fresh)?;
    let [low] = below;
    let mut path = Vec::with_capacity(alloc, 2)?;
    path.push(root)?;
    path.push(low)?;
    Ok(path)
}
