//! A tree that becomes one level higher (docs/volume.md, "Edits").

ghost use Rattle.std.specs.Prelude.{◌≡◌, ℕ, ◌+◌, ◌*◌, ◌^◌, ◌<◌, ◌≤◌, All, IfOk, OnOk, length, map};
ghost use Rattle.std.specs.Arc.{arc_value};
ghost use Rattle.r4_base.specs.Key.{least, top};
ghost use Rattle.r4_base.specs.Tree.{Root as TreeRoot, Store};
ghost use Rattle.r4_base.specs.Value.{Value};
ghost use Rattle.r4_patch.specs.r4_cell.Patch.{IsChange};
ghost use Rattle.r4_patch.specs.Joining.{patch_of_change};
ghost use Rattle.r4_patch.specs.Part.{MeetsPart};
ghost use Rattle.r4_path.specs.Growing.{Grows, HasNewRoot, IsRootIn};
ghost use Rattle.r4_path.specs.Nodes.{IsPointable, IsPointingTo};
ghost use Rattle.r4_path.specs.Steps.{Follow, OnlyTakes};

use crate::numbers::take_number;
use crate::pointing::fill_pointers;
use r4_base::{Block, Memory, get32};
use r4_patch::{Cell, Cells, Change, Fresh, Root, least, new_cell, top};
use std::alloc::Global;
use std::sync::Arc;

/// A new root over the root of a tree that is lower than 8 levels: the change has the old root among its old and among its
/// new cells, as it was, and a new cell that names it alone. It takes one fresh number. On `Memory` it may have been
/// taken (docs/volume.md, "Edits").
pub fn grow(alloc: Global, root: &Arc<Cell>, fresh: &mut Fresh) -> Result<Change, Memory>
    requires root { (t : Store Value) × ((r : TreeRoot) × IsRootIn t r (arc_value root.now) fresh.old) }
    requires low { (arc_value root.now).level < 8 }
    requires number { (2 ^ 63 ≤ fresh.old.next) × (fresh.old.next < fresh.old.end) }
    ensures change { IfOk result (λ c. IsChange c.old c.new c.root) }
    ensures meets { IfOk result (λ c. (t : Store Value) (r : TreeRoot) → IsRootIn t r (arc_value root.now) fresh.old
        → MeetsPart (patch_of_change c) t r) }
    ensures grows { IfOk result (λ c. Grows (arc_value root.now) fresh.old.next c) }
    ensures fresh { OnOk result (fresh.new ≡ record fresh.old { next = fresh.old.next + 1 }) }
    ensures numbers { OnlyTakes fresh.old fresh.new }
{
    let below = [Arc::try_clone(root)?];
    let over = root_over(alloc, &below, root.level(), fresh)?;
    grown(alloc, root, over)
}

/// The change that puts a new root over the old one.
fn grown(alloc: Global, root: &Arc<Cell>, over: Arc<Cell>) -> Result<Change, Memory>
    ensures { IfOk result (λ c. HasNewRoot (arc_value root.now) (arc_value over) c) }
{
    let mut old = Vec::with_capacity(alloc, 1)?;
    old.push(Arc::try_clone(root)?)?;
    let pair = Root {
        id: over.id(),
        height: over.level(),
    };
    let mut new = Vec::with_capacity(alloc, 2)?;
    new.push(Arc::try_clone(root)?)?;
    new.push(over)?;
    Ok(Change {
        old: Cells::from_vec(old),
        new: Cells::from_vec(new),
        root: Some(pair),
    })
}

/// A root over cells of a level, whose ranges follow each other and together are that of all keys.
pub fn root_over(
    alloc: Global,
    cells: &[Arc<Cell>],
    level: u8,
    fresh: &mut Fresh,
) -> Result<Arc<Cell>, Memory>
    requires level { (1 ≤ level) × (level < 8) }
    requires some { 1 ≤ length cells.now }
    requires few { 46 * length cells.now ≤ 4068 }
    requires follow { Follow level least top (map (λ c. arc_value c) cells.now) }
    requires able { All (λ c. IsPointable c.id) (map (λ c. arc_value c) cells.now) }
    requires number { fresh.old.next < fresh.old.end }
    ensures root { IfOk result (λ c. IsPointingTo (map (λ d. arc_value d) cells.now) (level + 1) fresh.old.next (arc_value c)) }
    ensures fresh { OnOk result (fresh.new ≡ record fresh.old { next = fresh.old.next + 1 }) }
    ensures numbers { OnlyTakes fresh.old fresh.new }
{
    let mut block = Block::zeroed(alloc)?;
    let mkfs_id = get32(cells[0].block().bytes(), 12);
    fill_pointers(&mut block, level + 1, mkfs_id, cells);
    new_cell(alloc, take_number(fresh), level + 1, least(), top(), block)
}
