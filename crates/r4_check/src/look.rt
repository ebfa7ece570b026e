//! The walk over a tree from the left, a node before its children (docs/check.md).

ghost use Rattle.std.specs.Prelude.{◌≡◌, ℕ, ◌+◌, ◌-◌, ◌^◌, ◌<◌, ◌≤◌, ◌==◌, false, true, drop, length, slice_get};
ghost use Rattle.std.specs.Prelude.{Some, None, IfOk, IfErr, IfSome, if◌then◌else◌};
ghost use Rattle.std.specs.Arc.{arc_value};
ghost use Rattle.r4_base.specs.Bitmap.{bitmap_count};
ghost use Rattle.r4_base.specs.Cell.{block_names, cell_fault, is_extent, is_stat, item_names, next_key, run_names};
ghost use Rattle.r4_base.specs.Extents.{AreLawfulUnits, IsLawfulUnit, body_fault, units_of};
ghost use Rattle.r4_base.specs.Image.{Image};
ghost use Rattle.r4_base.specs.Key.{rank};
ghost use Rattle.r4_base.specs.Node.{Item, items_of};
ghost use Rattle.r4_base.specs.Tree.{Name};
ghost use Rattle.r4_space.specs.Bitmaps.{AreBitmapsOf};
ghost use Rattle.r4_cell.specs.Seen.{node_of};
ghost use Rattle.r4_node40.specs.View.{item_shown};
ghost use Rattle.r4_twig.specs.View.{view_units};
ghost use Rattle.r4_check.specs.Walk.{Walk, look, look_at, meet, met_again, names_below, stats_in, with_fault};
ghost use Rattle.r4_check.specs.Walk.{wrong_with};
ghost use Rattle.r4_check.specs.Looking.{Goes, HasBits, IsAccepted, IsBelow, LooksAtBlocks, LooksAtItem, MayStand};
ghost use Rattle.r4_check.specs.Looking.{MeetsBlock, Steps, Tells, Walks, blocks_of, name_of, names_at};
ghost use Rattle.r4_check.specs.Units.{below_of, names_of, unit_names};

use crate::reading::{Met, Named, read_named};
use crate::settled::Settled;
use crate::stop::Stop;
use crate::tally::Tally;
use r4_base::{BlockNo, CellFault, EXTENT, POINTER, STAT, Unit};
use r4_cell::Cell;
use r4_check_objects::What;
use r4_node40::ItemView;
use r4_outside::{Device, Sink};
use r4_twig::{ExtentView, pointer};
use std::alloc::Global;
use std::sync::Arc;

// Looks at a data block.
fn look_at_block<K: Sink>(
    out: &mut K,
    settled: &Settled,
    tally: &mut Tally,
    b: u64,
) -> Result<(), Stop>
    requires size { HasBits settled.now tally.old }
    requires within { b < blocks_of settled.now }
    ensures tells { Tells (K.state out.old) tally.old result (K.state out.new) tally.new }
    ensures steps { MeetsBlock settled.now b (K.state out.old) tally.old result (K.state out.new)
        tally.new }
{
    if !tally.reach(b) {
        return look_again(out, tally, b);
    }
    let marked = settled.is_marked(b);
    tell_wrong(out, tally, b, wrong_with(marked, None))
}

// What is wrong with a block that is reached for the first time.
fn wrong_with(marked: bool, fault: Option<CellFault>) -> Option<What>
    ensures { result ≡ wrong_with marked fault }
{
    if !marked {
        return Some(What::Unmarked);
    }
    match fault {
        Some(fault) => Some(What::Cell(fault)),
        None => None,
    }
}

/// Tells what is wrong with a block, if anything is.
pub(crate) fn tell_wrong<K: Sink>(
    out: &mut K,
    tally: &mut Tally,
    b: u64,
    wrong: Option<What>,
) -> Result<(), Stop>
    ensures tells { Tells (K.state out.old) tally.old result (K.state out.new) tally.new }
    ensures steps { (blocks : ℕ) → Steps blocks (K.state out.old) tally.old
        result (K.state out.new) tally.new (with_fault b wrong) }
{
    let Some(what) = wrong else {
        return Ok(());
    };
    tally.tell(out, b, what)?;
    Ok(())
}

// Tells that a block was reached before.
fn look_again<K: Sink>(out: &mut K, tally: &mut Tally, b: u64) -> Result<(), Stop>
    ensures tells { Tells (K.state out.old) tally.old result (K.state out.new) tally.new }
    ensures steps { (blocks : ℕ) → Steps blocks (K.state out.old) tally.old
        result (K.state out.new) tally.new (met_again b) }
{
    tally.whole = false;
    tell_wrong(out, tally, b, Some(What::Twice))
}

// Looks at the blocks of a run.
fn look_at_run<K: Sink>(
    out: &mut K,
    settled: &Settled,
    tally: &mut Tally,
    start: u64,
    width: u64,
) -> Result<(), Stop>
    requires size { HasBits settled.now tally.old }
    requires within { start + width ≤ blocks_of settled.now }
    ensures tells { Tells (K.state out.old) tally.old result (K.state out.new) tally.new }
    ensures steps { LooksAtBlocks settled.now (λ key. run_names key start width)
        (K.state out.old) tally.old result (K.state out.new) tally.new }
{
    for i in 0..width {
        look_at_block(out, settled, tally, start + i)?;
    }
    Ok(())
}

// Looks at the blocks of a unit: none for a hole.
fn look_at_unit<K: Sink>(
    out: &mut K,
    settled: &Settled,
    tally: &mut Tally,
    unit: Unit,
) -> Result<(), Stop>
    requires size { HasBits settled.now tally.old }
    requires lawful { IsLawfulUnit false (blocks_of settled.now) unit }
    ensures tells { Tells (K.state out.old) tally.old result (K.state out.new) tally.new }
    ensures steps { LooksAtBlocks settled.now (λ key. unit_names key unit)
        (K.state out.old) tally.old result (K.state out.new) tally.new }
{
    if unit.start == 0 {
        return Ok(());
    }
    look_at_run(out, settled, tally, unit.start, unit.width)
}

// Looks at the blocks of an extent.
fn look_at_extent<K: Sink>(
    out: &mut K,
    settled: &Settled,
    tally: &mut Tally,
    extent: &ExtentView<'_>,
) -> Result<(), Stop>
    requires size { HasBits settled.now tally.old }
    requires lawful { AreLawfulUnits false (blocks_of settled.now) (view_units extent.now) }
    ensures tells { Tells (K.state out.old) tally.old result (K.state out.new) tally.new }
    ensures steps { LooksAtBlocks settled.now (λ key. block_names key (view_units extent.now))
        (K.state out.old) tally.old result (K.state out.new) tally.new }
{
    for i in 0..extent.len() {
        look_at_unit(out, settled, tally, extent.unit(i))?;
    }
    Ok(())
}

/// How many stat data a node has.
pub(crate) fn count_stats(cell: &Cell) -> u64
    requires level { 1 ≤ cell.now.level }
    ensures count { result ≡ stats_in (node_of cell.now) }
{
    let node = cell.node();
    let mut count = 0;
    for i in 0..node.len() {
        count += stats_of(&node.item(i));
    }
    count
}

// One for stat data, else none.
fn stats_of(item: &ItemView<'_>) -> u64
    ensures { result ≡ (if is_stat (item_shown item.now) then 1 else 0) }
{
    if item.plugin == STAT { 1 } else { 0 }
}

// Looks at a node, and gives its cell where it is reached for the first time and not refused.
fn meet_node<D: Device, K: Sink>(
    alloc: Global,
    dev: &mut D,
    out: &mut K,
    settled: &Settled,
    tally: &mut Tally,
    named: &Named,
) -> Result<Option<Arc<Cell>>, Stop>
    requires device { settled.now.device_blocks ≡ (D.state dev.old).blocks }
    requires size { HasBits settled.now tally.old }
    requires within { named.now.id < blocks_of settled.now }
    requires level { 1 ≤ named.now.level }
    ensures goes { Goes (D.state dev.old) (K.state out.old) tally.old
        result (D.state dev.new) (K.state out.new) tally.new }
    ensures cell { IfOk result (λ o. IfSome o (λ c. IsAccepted (blocks_of settled.now) named.now
        (arc_value c))) }
    ensures steps { Walks settled.now (D.state dev.old)
        (λ blocks image w. meet blocks image w (name_of named.now))
        (K.state out.old) tally.old result (K.state out.new) tally.new }
    ensures below { IfOk result (λ o.
        IsBelow settled.now (D.state dev.old) tally.old (name_of named.now) (below_of o)) }
{
    if !tally.reach(named.id) {
        look_again(out, tally, named.id)?;
        return Ok(None);
    }
    let marked = settled.is_marked(named.id);
    match read_named(alloc, dev, settled, named)? {
        Met::Cell(cell) => {
            tally.gather(named.id, &cell)?;
            tell_wrong(out, tally, named.id, wrong_with(marked, None))?;
            Ok(Some(cell))
        }
        Met::Refused(fault) => {
            tally.whole = false;
            tell_wrong(out, tally, named.id, wrong_with(marked, Some(fault)))?;
            Ok(None)
        }
    }
}

// The node that an item points to; none for one that is no pointer.
fn named_at(cell: &Cell, i: u16) -> Option<Named>
    requires level { 1 ≤ cell.now.level }
    requires place { i < length (items_of cell.now.block) }
    ensures named { (it : Item) → slice_get (items_of cell.now.block) i ≡ Some it
        → is_extent it ≡ false
        → names_at cell.now i it ≡ names_of result }
    ensures level { IfSome result (λ n. (1 ≤ n.level) × (n.level + 1 ≡ cell.now.level)) }
    ensures within { (blocks : ℕ) → MayStand blocks cell.now → IfSome result (λ n. n.id < blocks) }
{
    let node = cell.node();
    let item = node.item(i);
    if item.plugin != POINTER {
        return None;
    }
    match pointer(item.body) {
        Some(BlockNo(to)) => Some(Named {
            id: to,
            level: cell.level() - 1,
            lo: item.key,
            hi: node.key_behind(i, cell.hi()),
        }),
        None => None,
    }
}

/// Looks at a node and at all that is below it.
#[cycle(looking)]
pub fn look_at_node<D: Device, K: Sink>(
    alloc: Global,
    dev: &mut D,
    out: &mut K,
    settled: &Settled,
    tally: &mut Tally,
    named: &Named,
) -> Result<(), Stop>
    requires device { settled.now.device_blocks ≡ (D.state dev.old).blocks }
    requires size { HasBits settled.now tally.old }
    requires within { named.now.id < blocks_of settled.now }
    requires level { 1 ≤ named.now.level }
    ensures goes { Goes (D.state dev.old) (K.state out.old) tally.old
        result (D.state dev.new) (K.state out.new) tally.new }
    ensures steps { Walks settled.now (D.state dev.old)
        (λ blocks image w. look named.now.level blocks image w (name_of named.now))
        (K.state out.old) tally.old result (K.state out.new) tally.new }
{
    let Some(cell) = meet_node(alloc, dev, out, settled, tally, named)? else {
        return Ok(());
    };
    look_below(alloc, dev, out, settled, tally, &cell)
}

// Looks at all that a node names.
#[cycle(looking)]
fn look_below<D: Device, K: Sink>(
    alloc: Global,
    dev: &mut D,
    out: &mut K,
    settled: &Settled,
    tally: &mut Tally,
    cell: &Cell,
) -> Result<(), Stop>
    requires device { settled.now.device_blocks ≡ (D.state dev.old).blocks }
    requires size { HasBits settled.now tally.old }
    requires level { 1 ≤ cell.now.level }
    requires sound { MayStand (blocks_of settled.now) cell.now }
    ensures goes { Goes (D.state dev.old) (K.state out.old) tally.old
        result (D.state dev.new) (K.state out.new) tally.new }
    ensures steps { Walks settled.now (D.state dev.old)
        (λ blocks image w. look_at (cell.now.level - 1) blocks image w (node_of cell.now).names)
        (K.state out.old) tally.old result (K.state out.new) tally.new }
{
    for i in 0..cell.node().len() {
        look_at_item(alloc, dev, out, settled, tally, cell, i)?;
    }
    Ok(())
}

// Looks at all that an item of a node names.
#[cycle(looking)]
fn look_at_item<D: Device, K: Sink>(
    alloc: Global,
    dev: &mut D,
    out: &mut K,
    settled: &Settled,
    tally: &mut Tally,
    cell: &Cell,
    i: u16,
) -> Result<(), Stop>
    requires device { settled.now.device_blocks ≡ (D.state dev.old).blocks }
    requires size { HasBits settled.now tally.old }
    requires level { 1 ≤ cell.now.level }
    requires sound { MayStand (blocks_of settled.now) cell.now }
    requires place { i < length (items_of cell.now.block) }
    ensures goes { Goes (D.state dev.old) (K.state out.old) tally.old
        result (D.state dev.new) (K.state out.new) tally.new }
    ensures steps { LooksAtItem settled.now (D.state dev.old) cell.now i
        (K.state out.old) tally.old result (K.state out.new) tally.new }
{
    let node = cell.node();
    let item = node.item(i);
    if item.plugin == EXTENT {
        return look_at_extent(out, settled, tally, &ExtentView::of_item(item.body));
    }
    let Some(named) = named_at(cell, i) else {
        return Ok(());
    };
    look_at_node(alloc, dev, out, settled, tally, &named)
}
