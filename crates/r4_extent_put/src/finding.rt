//! Twigs among a task's cells among whose extents values come (docs/volume.md, "Bodies in
//! extents").

ghost use Rattle.std.specs.Prelude.{◌≡◌, ◌++◌, ◌∷◌, [], IfOk, OnOk, map, nat_lt};
ghost use Rattle.std.specs.Arc.{arc_value};
ghost use Rattle.std.specs.Option.{option_copied};
ghost use Rattle.r4_content.specs.Held.{edits_of};
ghost use Rattle.r4_extent_turned.specs.r4_extent_growth.r4_extent_demands.Sizes.{AreExtentEdits};
ghost use Rattle.r4_extent_turned.specs.r4_extent_growth.r4_measure.r4_cell.Seen.{node_of};
ghost use Rattle.r4_extent_turned.specs.r4_extent_growth.r4_measure.r4_reach.Needs.{put_among};
ghost use Rattle.r4_extent_put.specs.Whole.{is_putting, putting_among};

use r4_base::Memory;
use r4_content::Edits;
use r4_extent_turned::{Cell, SizedBody, Way, extents_have};
use std::alloc::Global;
use std::sync::Arc;

/// The twigs among some cells among whose extents values come that are no bytes of a body in
/// extents. The cells are shared, and in their order. No step is taken for a byte. The only error
/// is want of memory (docs/volume.md, "Bodies in extents").
pub fn putting_among(
    alloc: Global,
    body: Option<&SizedBody>,
    edits: &Edits,
    cells: &[Arc<Cell>],
) -> Result<Vec<Arc<Cell>>, Memory>
    requires { AreExtentEdits (option_copied body) (edits_of edits.now) }
    ensures { IfOk result (λ v. map (λ c. arc_value c) v.items
        ≡ putting_among (option_copied body.entry) (edits_of edits.now)
        (map (λ c. arc_value c) cells.now)) }
{
    let mut twigs = Vec::new(alloc);
    for cell in cells {
        add(&mut twigs, body, edits, cell)?;
    }
    Ok(twigs)
}

// Puts a cell behind others, where it is a twig among whose extents values come.
fn add(
    twigs: &mut Vec<Arc<Cell>>,
    body: Option<&SizedBody>,
    edits: &Edits,
    cell: &Arc<Cell>,
) -> Result<(), Memory>
    requires { AreExtentEdits (option_copied body) (edits_of edits.now) }
    ensures { OnOk result (map (λ c. arc_value c) twigs.new.items
        ≡ map (λ c. arc_value c) twigs.old.items
        ++ putting_among (option_copied body.entry) (edits_of edits.now)
        (arc_value cell.now ∷ [])) }
{
    if is_putting(body, edits, cell) {
        twigs.push(Arc::try_clone(cell)?)?;
    }
    Ok(())
}

// Whether a cell is a twig among whose extents values come.
pub(crate) fn is_putting(body: Option<&SizedBody>, edits: &Edits, cell: &Cell) -> bool
    requires { AreExtentEdits (option_copied body) (edits_of edits.now) }
    ensures { result ≡ is_putting (option_copied body.entry) (edits_of edits.now) cell.now }
{
    cell.level() == 2 && puts_among(body, edits, cell)
}

// Whether values come among a twig's extents.
fn puts_among(body: Option<&SizedBody>, edits: &Edits, twig: &Cell) -> bool
    requires twig { twig.now.level ≡ 2 }
    requires edits { AreExtentEdits (option_copied body) (edits_of edits.now) }
    ensures { result ≡ nat_lt 0
        (put_among (option_copied body.entry) (edits_of edits.now) (node_of twig.now)) }
{
    extents_have(Way::Puts(body, edits), twig)
}
