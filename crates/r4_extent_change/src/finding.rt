//! Twigs among a task's cells that lose blocks of a body in extents, with what goes of each
//! (docs/volume.md, "Bodies in extents").

ghost use Rattle.std.specs.Prelude.{◌≡◌, ◌++◌, ◌∷◌, [], IfOk, OnOk, map, true};
ghost use Rattle.std.specs.Arc.{arc_value};
ghost use Rattle.std.specs.List.{filter};
ghost use Rattle.std.specs.Option.{option_map};
ghost use Rattle.r4_base.specs.Key.{rank};
ghost use Rattle.r4_extent_counts.specs.r4_extent_demands.Sizes.{IsSizedBody};
ghost use Rattle.r4_extent_loss.specs.LosingEach.{loss_of};
ghost use Rattle.r4_extent_change.specs.Among.{is_block_of, is_left_of, is_losing, left_among};
ghost use Rattle.r4_extent_change.specs.Among.{loss_among, losing_twigs, losses_among};

use r4_base::Memory;
use r4_build::Cell;
use r4_extent_counts::SizedBody;
use r4_extent_loss::{Losing, gone_of};
use std::alloc::Global;
use std::sync::Arc;

/// The twigs among some cells that lose blocks of a body in extents: those in whose range keys of
/// blocks lie that go. Of each it tells the data blocks among the cells that begin at such a key of
/// it, and the leaf below it among the cells that ends where the first of these keys is, if there
/// is one. The cells are shared, and in their order. No block of a hole is looked at. The only
/// error is want of memory (docs/volume.md, "Bodies in extents").
pub fn losing_among(
    alloc: Global,
    body: &SizedBody,
    cells: &[Arc<Cell>],
) -> Result<Vec<Losing>, Memory>
    requires sized { IsSizedBody body.now }
    requires in_extents { body.now.in_extents ≡ true }
    ensures { IfOk result (λ v. map (λ x. loss_of x) v.items
        ≡ losses_among body.now (map (λ c. arc_value c) cells.now)) }
{
    let mut losing = Vec::new(alloc);
    add_each(alloc, &mut losing, body, cells, cells)?;
    Ok(losing)
}

// Puts those of some cells behind others that are twigs which lose blocks, each with what goes of
// it among all cells.
fn add_each(
    alloc: Global,
    losing: &mut Vec<Losing>,
    body: &SizedBody,
    some: &[Arc<Cell>],
    cells: &[Arc<Cell>],
) -> Result<(), Memory>
    requires sized { IsSizedBody body.now }
    requires in_extents { body.now.in_extents ≡ true }
    ensures { OnOk result (map (λ x. loss_of x) losing.new.items
        ≡ map (λ x. loss_of x) losing.old.items
        ++ map (loss_among body.now (map (λ c. arc_value c) cells.now))
        (losing_twigs body.now (map (λ c. arc_value c) some.now))) }
{
    match some.split_first() {
        None => Ok(()),
        Some((first, rest)) => {
            add(alloc, losing, body, first, cells)?;
            add_each(alloc, losing, body, rest, cells)
        }
    }
}

// Puts a cell behind others, with what goes of it, where it is a twig that loses blocks.
fn add(
    alloc: Global,
    losing: &mut Vec<Losing>,
    body: &SizedBody,
    cell: &Arc<Cell>,
    cells: &[Arc<Cell>],
) -> Result<(), Memory>
    requires sized { IsSizedBody body.now }
    requires in_extents { body.now.in_extents ≡ true }
    ensures { OnOk result (map (λ x. loss_of x) losing.new.items
        ≡ map (λ x. loss_of x) losing.old.items
        ++ map (loss_among body.now (map (λ c. arc_value c) cells.now))
        (losing_twigs body.now (arc_value cell.now ∷ []))) }
{
    if !is_losing(body, cell) {
        return Ok(());
    }
    let loss = loss_among(alloc, body, cell, cells)?;
    losing.push(loss)?;
    Ok(())
}

// What goes of a twig among some cells.
fn loss_among(
    alloc: Global,
    body: &SizedBody,
    twig: &Arc<Cell>,
    cells: &[Arc<Cell>],
) -> Result<Losing, Memory>
    requires sized { IsSizedBody body.now }
    requires in_extents { body.now.in_extents ≡ true }
    ensures { IfOk result (λ x. loss_of x
        ≡ loss_among body.now (map (λ c. arc_value c) cells.now) (arc_value twig.now)) }
{
    let mut blocks = Vec::new(alloc);
    add_blocks(&mut blocks, body, twig, cells)?;
    let leaf = left_among(body, twig, cells)?;
    Ok(Losing {
        twig: Arc::try_clone(twig)?,
        leaf,
        blocks,
    })
}

// Puts those of some cells behind others that are data blocks which go of a twig.
fn add_blocks(
    blocks: &mut Vec<Arc<Cell>>,
    body: &SizedBody,
    twig: &Cell,
    cells: &[Arc<Cell>],
) -> Result<(), Memory>
    requires sized { IsSizedBody body.now }
    requires in_extents { body.now.in_extents ≡ true }
    ensures { OnOk result (map (λ c. arc_value c) blocks.new.items
        ≡ map (λ c. arc_value c) blocks.old.items
        ++ filter (is_block_of body.now twig.now) (map (λ c. arc_value c) cells.now)) }
{
    match cells.split_first() {
        None => Ok(()),
        Some((first, rest)) => {
            add_block(blocks, body, twig, first)?;
            add_blocks(blocks, body, twig, rest)
        }
    }
}

// Puts a cell behind others, where it is a data block that goes of a twig.
fn add_block(
    blocks: &mut Vec<Arc<Cell>>,
    body: &SizedBody,
    twig: &Cell,
    cell: &Arc<Cell>,
) -> Result<(), Memory>
    requires sized { IsSizedBody body.now }
    requires in_extents { body.now.in_extents ≡ true }
    ensures { OnOk result (map (λ c. arc_value c) blocks.new.items
        ≡ map (λ c. arc_value c) blocks.old.items
        ++ filter (is_block_of body.now twig.now) (arc_value cell.now ∷ [])) }
{
    if !is_block_of(body, twig, cell) {
        return Ok(());
    }
    blocks.push(Arc::try_clone(cell)?)?;
    Ok(())
}

// The first of some cells that is the leaf left of what goes of a twig.
fn left_among(
    body: &SizedBody,
    twig: &Cell,
    cells: &[Arc<Cell>],
) -> Result<Option<Arc<Cell>>, Memory>
    requires sized { IsSizedBody body.now }
    requires in_extents { body.now.in_extents ≡ true }
    ensures { IfOk result (λ o. option_map (λ c. arc_value c) o
        ≡ left_among body.now twig.now (map (λ c. arc_value c) cells.now)) }
{
    match cells.split_first() {
        None => Ok(None),
        Some((first, rest)) => {
            if is_left_of(body, twig, first) {
                Ok(Some(Arc::try_clone(first)?))
            } else {
                left_among(body, twig, rest)
            }
        }
    }
}

// Whether a cell is a twig in whose range keys go.
fn is_losing(body: &SizedBody, cell: &Cell) -> bool
    requires sized { IsSizedBody body.now }
    requires in_extents { body.now.in_extents ≡ true }
    ensures { result ≡ is_losing body.now cell.now }
{
    let gone = gone_of(body, cell);
    cell.level() == 2 && gone.from.is_below(gone.to)
}

// Whether a cell is a data block that begins at a key which goes of a twig.
fn is_block_of(body: &SizedBody, twig: &Cell, cell: &Cell) -> bool
    requires sized { IsSizedBody body.now }
    requires in_extents { body.now.in_extents ≡ true }
    ensures { result ≡ is_block_of body.now twig.now cell.now }
{
    let gone = gone_of(body, twig);
    cell.level() == 0 && !cell.lo().is_below(gone.from) && cell.lo().is_below(gone.to)
}

// Whether a cell is the leaf below a twig that ends where the first key is that goes of it.
fn is_left_of(body: &SizedBody, twig: &Cell, cell: &Cell) -> bool
    requires sized { IsSizedBody body.now }
    requires in_extents { body.now.in_extents ≡ true }
    ensures { result ≡ is_left_of body.now twig.now cell.now }
{
    let gone = gone_of(body, twig);
    cell.level() == 1 && !cell.lo().is_below(twig.lo()) && cell.hi().is_same(gone.from)
}
