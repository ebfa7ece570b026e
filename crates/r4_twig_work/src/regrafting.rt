//! A standing twig is packed anew, with what goes and comes below it, as one step.

ghost use Rattle.std.specs.Prelude.{◌≡◌, ◌++◌, ◌^◌, ◌≤◌, ℕ, map, OnErr, OnOk, IfOk};
ghost use Rattle.std.specs.Arc.{arc_value};
ghost use Rattle.r4_base.specs.Key.{rank};
ghost use Rattle.r4_base.specs.Tree.{Root as TreeRoot, Store};
ghost use Rattle.r4_base.specs.Value.{Value};
ghost use Rattle.r4_measure.specs.Grafting.{IsRegrafted};
ghost use Rattle.r4_measure.specs.r4_path.Steps.{OnlyTakes};
ghost use Rattle.r4_twig_work.specs.Regrafting.{DoesBelow, IsRegraftable, beside_of};
ghost use Rattle.r4_measure.specs.r4_work.Working.{IsWorking};

use r4_base::{Key, Memory};
use r4_extent_edit::{TwigPiece, graft_below};
use r4_measure::{Cell, Cells, Change, Fresh, WorkingSet};
use std::alloc::Global;
use std::sync::Arc;

/// What goes and comes below a twig: leaves and blocks that go, leaves that come, and data blocks that come. The cells
/// are shared.
#[derive(Drop)]
pub struct Below {
    pub old: Vec<Arc<Cell>>,
    pub new: Vec<Arc<Cell>>,
    pub blocks: Vec<Arc<Cell>>,
}

/// Packs the standing twig that has a key anew, of some pieces, while cells below it go and others come, and puts that
/// in place as one change. Where the pieces need more than 4068 bytes, more twigs come, and the cells above get pointers
/// to them. The only error is want of memory: then the set and the numbers are as they were.
pub fn regraft(
    alloc: Global,
    set: &mut WorkingSet,
    key: &Key,
    pieces: &[TwigPiece],
    below: Below,
    fresh: &mut Fresh,
) -> Result<(), Memory>
    requires can { (t : Store Value) × ((r : TreeRoot) × ((first : ℕ)
        × IsRegraftable t r fresh.old set.old (rank key.now) pieces.now (beside_of below) first)) }
    requires numbers { 2 ^ 63 ≤ fresh.old.next }
    ensures working { OnOk result ((t : Store Value) (r : TreeRoot) (first : ℕ)
        → IsRegraftable t r fresh.old set.old (rank key.now) pieces.now (beside_of below) first
        → IsWorking t r fresh.new set.new) }
    ensures effect { OnOk result ((t : Store Value) (r : TreeRoot) (first : ℕ)
        → IsRegraftable t r fresh.old set.old (rank key.now) pieces.now (beside_of below) first
        → DoesBelow set.old set.new (rank key.now) pieces.now (beside_of below)) }
    ensures regrafted { OnOk result ((t : Store Value) (r : TreeRoot) (first : ℕ)
        → IsRegraftable t r fresh.old set.old (rank key.now) pieces.now (beside_of below) first
        → IsRegrafted t r fresh.old fresh.new set.old set.new (rank key.now) pieces.now
        (beside_of below)) }
    ensures numbers { OnlyTakes fresh.old fresh.new }
    ensures unchanged { OnErr result ((set.new ≡ set.old) × (fresh.new ≡ fresh.old)) }
{
    let _end = fresh.end;
    let path = set.twig_path(alloc, key)?;
    let mut numbers = *fresh;
    let Below { old, new, blocks } = below;
    let change = graft_below(alloc, path.as_slice(), pieces, old, new, &mut numbers)?;
    let change = with_blocks(change, blocks)?;
    set.put_in_place(alloc, &change)?;
    *fresh = numbers;
    Ok(())
}

// The change with data blocks behind its new cells.
fn with_blocks(change: Change, blocks: Vec<Arc<Cell>>) -> Result<Change, Memory>
    ensures { IfOk result (λ d. d ≡ record change {
      new = change.new ++ map (λ c. arc_value c) blocks.items;
    }) }
{
    let Change { old, new, root } = change;
    let mut all = new.into_vec();
    let mut blocks = blocks;
    all.append(&mut blocks)?;
    Ok(Change {
        old,
        new: Cells::from_vec(all),
        root,
    })
}
