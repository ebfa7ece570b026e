//! The cells that come in the place of a twig (docs/volume.md, "Edits").

ghost use Rattle.std.specs.Prelude.{◌≡◌, ◌+◌, ◌≤◌, ◌∷◌, ◌++◌, List, length, map, IfOk, OnOk};
ghost use Rattle.std.specs.Arc.{arc_value};
ghost use Rattle.std.specs.Vec.Iter.{into_iter_items};
ghost use Rattle.r4_base.specs.Key.{rank};
ghost use Rattle.r4_base.specs.Node.{mkfs_id_of};
ghost use Rattle.r4_graft.specs.r4_branch.Twigs.{AreFewTwigs, PacksTwigs};
ghost use Rattle.r4_graft.specs.r4_branch.declared.piece.TwigPiece.{TwigPiece};
ghost use Rattle.r4_path.specs.Grafts.{ArePackedTwigs, IsTwigLevel, TwigsHaveMkfsId, twig_cells};
ghost use Rattle.r4_path.specs.Levels.{step_of};
ghost use Rattle.r4_path.specs.Steps.{OnlyTakes};

use crate::level::Level;
use crate::numbers::take_number;
use r4_base::{Key, Memory, NodeId, TWIG};
use r4_graft::Twig;
use r4_patch::{Cell, Cells, Fresh, new_cell};
use std::alloc::Global;
use std::sync::Arc;
use std::vec::IntoIter;

/// The level of a twig, in whose place these twigs come. They share out its range; the first has its name, and each other
/// one takes a fresh number.
pub fn twig_level(
    alloc: Global,
    twig: &Arc<Cell>,
    twigs: Vec<Twig>,
    fresh: &mut Fresh,
) -> Result<Level, Memory>
    requires packed { ArePackedTwigs (rank (arc_value twig.now).lo) (rank (arc_value twig.now).hi) twigs.items }
    requires numbers { fresh.old.next + length twigs.items ≤ fresh.old.end }
    ensures step { IfOk result (λ l. (qs : List TwigPiece)
        → PacksTwigs (rank (arc_value twig.now).lo) (rank (arc_value twig.now).hi) qs twigs.items
        → AreFewTwigs qs twigs.items → TwigsHaveMkfsId (mkfs_id_of (arc_value twig.now).block) twigs.items
        → IsTwigLevel (arc_value twig.now) qs fresh.old fresh.new (step_of l)) }
    ensures numbers { OnlyTakes fresh.old fresh.new }
{
    let mut cells = Vec::with_capacity(alloc, twigs.len())?;
    let mut rest = twigs.into_iter();
    if let Some(first) = rest.next() {
        add(alloc, twig.id(), first, rest, twig.hi(), fresh, &mut cells)?;
    }
    Ok(Level {
        old: Arc::try_clone(twig)?,
        new: Cells::from_vec(cells),
    })
}

/// Puts the cells of a twig and of the further ones behind the others. The twig has this name, and each other one takes a
/// fresh number; each goes up to where the next one begins, and the last up to `hi`.
fn add(
    alloc: Global,
    id: NodeId,
    twig: Twig,
    mut more: IntoIter<Twig>,
    hi: Key,
    fresh: &mut Fresh,
    cells: &mut Vec<Arc<Cell>>,
) -> Result<(), Memory>
    requires packed { ArePackedTwigs (rank twig.lo) (rank hi) (twig ∷ into_iter_items more) }
    requires numbers { fresh.old.next + length (into_iter_items more) ≤ fresh.old.end }
    ensures cells { OnOk result (map (λ c. arc_value c) cells.new.items
        ≡ map (λ c. arc_value c) cells.old.items ++ twig_cells id.0 fresh.old.next hi (twig ∷ into_iter_items more)) }
    ensures fresh { OnOk result (fresh.new ≡ record fresh.old { next = fresh.old.next + length (into_iter_items more) }) }
    ensures numbers { OnlyTakes fresh.old fresh.new }
{
    let Some(next) = more.next() else {
        cells.push(new_cell(alloc, id, TWIG, twig.lo, hi, twig.block)?)?;
        return Ok(());
    };
    cells.push(new_cell(alloc, id, TWIG, twig.lo, next.lo, twig.block)?)?;
    let id = take_number(fresh);
    add(alloc, id, next, more, hi, fresh, cells)
}
