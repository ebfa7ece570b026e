//! The twig among a task's cells that a body comes out to, and its leaves there (docs/volume.md,
//! "Bodies in extents").

ghost use Rattle.std.specs.Prelude.{◌≡◌, ◌++◌, ◌∷◌, [], IfOk, OnOk, find, map, true};
ghost use Rattle.std.specs.Arc.{arc_value};
ghost use Rattle.std.specs.List.{filter};
ghost use Rattle.std.specs.Option.{option_map};
ghost use Rattle.r4_base.specs.Key.{rank};
ghost use Rattle.r4_extent_shrink.specs.r4_extent_growth.r4_extent_demands.Sizes.{IsSizedBody};
ghost use Rattle.r4_extent_shrink.specs.r4_extent_growth.r4_measure.r4_reach.Needs.{meets};
ghost use Rattle.r4_extent_shrink.specs.r4_extent_growth.r4_measure.r4_reach.Touched.{turns_out};
ghost use Rattle.r4_extent_turn.specs.TurningIn.{turn_of};
ghost use Rattle.r4_extent_turned.specs.Finding.{is_leaf_of, is_twig_of, turn_among};

use r4_base::{Key, Memory};
use r4_extent_shrink::{Cell, KeyRange, SizedBody};
use r4_extent_turn::Turning;
use std::alloc::Global;
use std::sync::Arc;

/// The twig among some cells in whose range the first of the blocks lies that come with a body out
/// of tails, and those leaves among the cells that have a key of these blocks, in the cells' order.
/// There is none where no cell is such a twig, or none is such a leaf. The cells are shared. The
/// only error is want of memory (docs/volume.md, "Bodies in extents").
pub fn turning_among(
    alloc: Global,
    body: &SizedBody,
    cells: &[Arc<Cell>],
) -> Result<Option<Turning>, Memory>
    requires sized { IsSizedBody body.now }
    requires turns { turns_out body.now ≡ true }
    ensures { IfOk result (λ o. option_map (λ x. turn_of x) o
        ≡ turn_among body.now (map (λ c. arc_value c) cells.now)) }
{
    let Some(twig) = twig_among(body, cells)? else {
        return Ok(None);
    };
    let leaves = leaves_among(alloc, body, cells)?;
    if leaves.is_empty() {
        return Ok(None);
    }
    Ok(Some(Turning { twig, leaves }))
}

// The first twig among some cells in whose range the first of the blocks lies that come.
fn twig_among(body: &SizedBody, cells: &[Arc<Cell>]) -> Result<Option<Arc<Cell>>, Memory>
    requires sized { IsSizedBody body.now }
    ensures { IfOk result (λ o. option_map (λ c. arc_value c) o
        ≡ find (is_twig_of body.now) (map (λ c. arc_value c) cells.now)) }
{
    for cell in cells {
        if is_twig_of(body, cell) {
            return Ok(Some(Arc::try_clone(cell)?));
        }
    }
    Ok(None)
}

// The leaves among some cells that have a key of the blocks that come.
fn leaves_among(
    alloc: Global,
    body: &SizedBody,
    cells: &[Arc<Cell>],
) -> Result<Vec<Arc<Cell>>, Memory>
    requires sized { IsSizedBody body.now }
    requires turns { turns_out body.now ≡ true }
    ensures { IfOk result (λ v. map (λ c. arc_value c) v.items
        ≡ filter (is_leaf_of body.now) (map (λ c. arc_value c) cells.now)) }
{
    let mut leaves = Vec::new(alloc);
    for cell in cells {
        add_leaf(&mut leaves, body, cell)?;
    }
    Ok(leaves)
}

// Puts a cell behind others, where it is a leaf that has a key of the blocks that come.
fn add_leaf(leaves: &mut Vec<Arc<Cell>>, body: &SizedBody, cell: &Arc<Cell>) -> Result<(), Memory>
    requires sized { IsSizedBody body.now }
    requires turns { turns_out body.now ≡ true }
    ensures { OnOk result (map (λ c. arc_value c) leaves.new.items
        ≡ map (λ c. arc_value c) leaves.old.items
        ++ filter (is_leaf_of body.now) (arc_value cell.now ∷ [])) }
{
    if !is_leaf_of(body, cell) {
        return Ok(());
    }
    leaves.push(Arc::try_clone(cell)?)?;
    Ok(())
}

// Whether a cell is a twig in whose range the first of the blocks that come lies.
fn is_twig_of(body: &SizedBody, cell: &Cell) -> bool
    requires sized { IsSizedBody body.now }
    ensures { result ≡ is_twig_of body.now cell.now }
{
    let first = body.first_byte();
    cell.level() == 2 && !first.is_below(cell.lo()) && first.is_below(cell.hi())
}

// Whether a cell is a leaf that has a key of the blocks that come.
fn is_leaf_of(body: &SizedBody, cell: &Cell) -> bool
    requires sized { IsSizedBody body.now }
    requires turns { turns_out body.now ≡ true }
    ensures { result ≡ is_leaf_of body.now cell.now }
{
    cell.level() == 1 && meets(cell.lo(), cell.hi(), &body.coming())
}

// Whether a range of keys has one that another range has.
fn meets(lo: Key, hi: Key, other: &KeyRange) -> bool
    ensures { result ≡ meets (rank lo) (rank hi) (rank other.now.from, rank other.now.to) }
{
    let from = if lo.is_below(other.from) {
        other.from
    } else {
        lo
    };
    let to = if hi.is_below(other.to) { hi } else { other.to };
    from.is_below(to)
}
