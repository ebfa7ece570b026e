//! Data blocks that stand get the bytes that edits set in them (docs/volume.md, "Bodies in extents").

ghost use Rattle.std.specs.Prelude.{◌≡◌, ◌++◌, ◌∷◌, [], List, Contains, map, OnErr, OnOk};
ghost use Rattle.std.specs.Arc.{arc_value};
ghost use Rattle.r4_base.specs.Tree.{Root as TreeRoot, Store};
ghost use Rattle.r4_base.specs.Value.{Value};
ghost use Rattle.r4_twig_work.specs.r4_cell.Seen.{CellSeen};
ghost use Rattle.r4_twig_work.specs.r4_cell.declared.change.Fresh.{Fresh as FreshSeen};
ghost use Rattle.r4_content.specs.Held.{edits_of};
ghost use Rattle.r4_twig_work.specs.r4_work.Remaking.{Changes};
ghost use Rattle.r4_twig_work.specs.r4_work.Working.{IsWorking};
ghost use Rattle.r4_extent_renew.specs.Overwriting.{AreOverwritten, AreStandingBlocks, bytes_set};
ghost use Rattle.r4_extent_renew.specs.Overwriting.{AreSetAmong, AreStandingCells, blocks_among};
ghost use Rattle.r4_extent_renew.specs.Overwriting.{StaysMeasured, is_set_in};
ghost use Rattle.r4_twig_work.specs.r4_measure.Budget.{Budget};
ghost use Rattle.r4_twig_work.specs.r4_measure.Measured.{IsMeasured};
ghost use Rattle.r4_twig_work.specs.Renewing.{IsRenewed, StandAsBefore};

use r4_base::Memory;
use r4_content::Edits;
use r4_extent_blocks::{Cell, overwritten, sets_bytes};
use r4_twig_work::{WorkingSet, add, renew};
use std::alloc::Global;
use std::sync::Arc;

/// Gives data blocks that stand the bytes that edits set in them, as one change; the twigs that name them are not
/// touched. What edits cut stays as it is, and so does what they leave alone. A block of which one edit sets all is not
/// copied first. No number is taken, and as many cells stand as before. The only error is want of memory: then the set is
/// as it was (docs/volume.md, "Bodies in extents").
pub fn overwrite(
    alloc: Global,
    set: &mut WorkingSet,
    blocks: &[Arc<Cell>],
    edits: &Edits,
) -> Result<(), Memory>
    requires can { (t : Store Value) × ((r : TreeRoot) × ((f : FreshSeen)
        × AreStandingBlocks t r f set.old (map (λ c. arc_value c) blocks.now))) }
    ensures working { OnOk result ((t : Store Value) (r : TreeRoot) (f : FreshSeen)
        → AreStandingBlocks t r f set.old (map (λ c. arc_value c) blocks.now)
        → IsWorking t r f set.new) }
    ensures changes { OnOk result (Changes set.old set.new
        (is_set_in (edits_of edits.now) (map (λ c. arc_value c) blocks.now))
        (bytes_set (edits_of edits.now))) }
    ensures renewed { OnOk result ((news : List CellSeen)
        × (AreOverwritten (edits_of edits.now) (map (λ c. arc_value c) blocks.now) news
        × ((t : Store Value) (r : TreeRoot) (f : FreshSeen)
        → AreStandingBlocks t r f set.old (map (λ c. arc_value c) blocks.now)
        → IsRenewed t r f set.old set.new (map (λ c. arc_value c) blocks.now) news))) }
    ensures stand { OnOk result (StandAsBefore set.old set.new) }
    ensures measured { OnOk result ((t : Store Value) (r : TreeRoot) (f : FreshSeen) (b : Budget)
        → AreStandingBlocks t r f set.old (map (λ c. arc_value c) blocks.now)
        → IsMeasured t r f set.old b → StaysMeasured t r f set.old set.new b) }
    ensures unchanged { OnErr result (set.new ≡ set.old) }
{
    let mut old = Vec::new(alloc);
    add(&mut old, blocks)?;
    let mut new = Vec::new(alloc);
    overwrite_each(alloc, &mut new, blocks, edits)?;
    renew(alloc, set, old, new)
}

// Puts each block after edits behind the cells.
fn overwrite_each(
    alloc: Global,
    cells: &mut Vec<Arc<Cell>>,
    blocks: &[Arc<Cell>],
    edits: &Edits,
) -> Result<(), Memory>
    requires { (c : CellSeen) → Contains (map (λ c. arc_value c) blocks.now) c → c.level ≡ 0 }
    ensures { OnOk result ((news : List CellSeen)
        × (map (λ c. arc_value c) cells.new.items
        ≡ map (λ c. arc_value c) cells.old.items ++ news)
        × AreOverwritten (edits_of edits.now) (map (λ c. arc_value c) blocks.now) news) }
{
    match blocks.split_first() {
        None => Ok(()),
        Some((first, rest)) => {
            cells.push(overwritten(alloc, first, edits)?)?;
            overwrite_each(alloc, cells, rest, edits)?;
            Ok(())
        }
    }
}

/// Gives the data blocks among some cells that stand the bytes that edits set in them, as one change; blocks in which
/// nothing is set stay, and so do the other cells. No number is taken, and as many cells stand as before. The only error
/// is want of memory: then the set is as it was (docs/volume.md, "Bodies in extents").
pub fn overwrite_among(
    alloc: Global,
    set: &mut WorkingSet,
    cells: &[Arc<Cell>],
    edits: &Edits,
) -> Result<(), Memory>
    requires can { (t : Store Value) × ((r : TreeRoot) × ((f : FreshSeen)
        × AreStandingCells t r f set.old (map (λ c. arc_value c) cells.now))) }
    ensures working { OnOk result ((t : Store Value) (r : TreeRoot) (f : FreshSeen)
        → AreStandingCells t r f set.old (map (λ c. arc_value c) cells.now)
        → IsWorking t r f set.new) }
    ensures changes { OnOk result (Changes set.old set.new
        (is_set_in (edits_of edits.now) (blocks_among (map (λ c. arc_value c) cells.now)))
        (bytes_set (edits_of edits.now))) }
    ensures renewed { OnOk result ((olds : List CellSeen) × ((news : List CellSeen)
        × (AreSetAmong (edits_of edits.now) (map (λ c. arc_value c) cells.now) olds
        × (AreOverwritten (edits_of edits.now) olds news
        × ((t : Store Value) (r : TreeRoot) (f : FreshSeen)
        → AreStandingCells t r f set.old (map (λ c. arc_value c) cells.now)
        → IsRenewed t r f set.old set.new olds news))))) }
    ensures stand { OnOk result (StandAsBefore set.old set.new) }
    ensures measured { OnOk result ((t : Store Value) (r : TreeRoot) (f : FreshSeen) (b : Budget)
        → AreStandingCells t r f set.old (map (λ c. arc_value c) cells.now)
        → IsMeasured t r f set.old b → StaysMeasured t r f set.old set.new b) }
    ensures unchanged { OnErr result (set.new ≡ set.old) }
{
    let mut blocks = Vec::new(alloc);
    pick_each(&mut blocks, cells, edits)?;
    overwrite(alloc, set, blocks.as_slice(), edits)
}

// Puts those data blocks among some cells behind others in which something is set.
fn pick_each(blocks: &mut Vec<Arc<Cell>>, cells: &[Arc<Cell>], edits: &Edits) -> Result<(), Memory>
    ensures { OnOk result ((picked : List CellSeen)
        × (map (λ c. arc_value c) blocks.new.items
        ≡ map (λ c. arc_value c) blocks.old.items ++ picked)
        × AreSetAmong (edits_of edits.now) (map (λ c. arc_value c) cells.now) picked) }
{
    match cells.split_first() {
        None => Ok(()),
        Some((first, rest)) => {
            pick(blocks, first, edits)?;
            pick_each(blocks, rest, edits)?;
            Ok(())
        }
    }
}

// Puts a cell behind others, where it is a data block in which something is set.
fn pick(blocks: &mut Vec<Arc<Cell>>, cell: &Arc<Cell>, edits: &Edits) -> Result<(), Memory>
    ensures { OnOk result ((picked : List CellSeen)
        × (map (λ c. arc_value c) blocks.new.items
        ≡ map (λ c. arc_value c) blocks.old.items ++ picked)
        × AreSetAmong (edits_of edits.now) (arc_value cell.now ∷ []) picked) }
{
    if cell.level() != 0 {
        return Ok(());
    }
    if !sets_bytes(edits, &cell.lo()) {
        return Ok(());
    }
    blocks.push(Arc::try_clone(cell)?)?;
    Ok(())
}
