//! The cells of a task, with what was changed of them so far (docs/volume.md, "The working set").

ghost use Rattle.std.specs.Prelude.{◌≡◌, ◌++◌, ◌-◌, ◌≤◌, map, reverse, IfOk, IfSome, OnErr, OnOk};
ghost use Rattle.std.specs.Arc.{arc_value};
ghost use Rattle.std.specs.Option.{option_copied, option_map};
ghost use Rattle.r4_base.specs.Key.{rank};
ghost use Rattle.r4_base.specs.Tree.{Root as TreeRoot, Store};
ghost use Rattle.r4_base.specs.Value.{Value};
ghost use Rattle.r4_edit.specs.r4_cell.declared.change.Fresh.{Fresh as FreshSeen};
ghost use Rattle.r4_work.specs.Order.{AreNamedByPlace, AreRangesApart, IsAt, cell_at};
ghost use Rattle.r4_work.specs.Working.{AreCellsIn, HasNoEffect, IsPutInPlace, IsStart, IsWorking};
ghost use Rattle.r4_work.specs.Working.{path_of, standing, twig_path_of, ups_of};

use crate::ordered::OrderedCells;
use r4_base::{Key, Memory, NodeId};
use r4_edit::{Cell, Cells, Change, follow};
use std::alloc::Global;
use std::sync::Arc;

/// The cells of a task that are not replaced, and one change of all that were. A cell is looked for by halves, and
/// cells are shared: no block is copied (docs/volume.md, "The working set").
#[derive(Drop)]
pub struct WorkingSet {
    kept: OrderedCells,
    // the new cells of the change once more, in order
    made: OrderedCells,
    change: Change,
}

impl WorkingSet {
    /// The cells of a task, of which none is changed. The only error is want of memory. For n cells it takes n log n
    /// steps.
    pub fn new(alloc: Global, cells: &[Arc<Cell>]) -> Result<WorkingSet, Memory>
        ensures start { IfOk result (λ w. IsStart (map (λ c. arc_value c) cells.now) w) }
        ensures working { IfOk result (λ w. (t : Store Value) (r : TreeRoot) (f : FreshSeen)
            → AreCellsIn t r f (map (λ c. arc_value c) cells.now) → IsWorking t r f w) }
        ensures effect { IfOk result (λ w. HasNoEffect w) }
    {
        let kept = OrderedCells::from_cells(alloc, cells)?;
        Ok(WorkingSet {
            kept,
            made: OrderedCells::new(alloc),
            change: Change {
                old: Cells::new(alloc),
                new: Cells::new(alloc),
                root: None,
            },
        })
    }

    /// The change so far.
    pub fn into_change(self) -> Change
        ensures { result ≡ self.change }
    {
        self.change
    }

    /// The number of the root, where it is another one than before the change (docs/volume.md, "The working set").
    pub fn new_root(&self) -> Option<NodeId>
        ensures { result ≡ option_map (λ x. x.id) self.now.change.root }
    {
        let root = self.change.root?;
        Some(root.id)
    }

    /// The standing leaf that has a key.
    pub fn leaf_at(&self, key: &Key) -> Option<&Arc<Cell>>
        ensures stands { IfSome result (λ c.
            IsAt (standing self.now) 1 (rank key.now) (arc_value c.now)) }
        ensures exact { (t : Store Value) (r : TreeRoot) (f : FreshSeen)
            → IsWorking t r f self.now → option_map (λ c. arc_value c) (option_copied result)
            ≡ cell_at (standing self.now) 1 (rank key.now) }
    {
        self.cell_at(1, *key)
    }

    /// The standing leaf that has a key and the cells above it, one level after another, from the top down. The only
    /// error is want of memory.
    pub fn path(&self, alloc: Global, key: &Key) -> Result<Vec<Arc<Cell>>, Memory>
        ensures { IfOk result (λ v. (t : Store Value) (r : TreeRoot) (f : FreshSeen)
            → IsWorking t r f self.now
            → map (λ c. arc_value c) v.items ≡ reverse (path_of self.now (rank key.now))) }
    {
        self.path_from(alloc, 1, *key)
    }

    /// The standing twig that has a key and the cells above it, one level after another, from the top down. The only
    /// error is want of memory.
    pub fn twig_path(&self, alloc: Global, key: &Key) -> Result<Vec<Arc<Cell>>, Memory>
        ensures { IfOk result (λ v. (t : Store Value) (r : TreeRoot) (f : FreshSeen)
            → IsWorking t r f self.now
            → map (λ c. arc_value c) v.items ≡ reverse (twig_path_of self.now (rank key.now))) }
    {
        self.path_from(alloc, 2, *key)
    }

    // The standing cells that have a key, from a level on, from the top down.
    fn path_from(&self, alloc: Global, level: u8, key: Key) -> Result<Vec<Arc<Cell>>, Memory>
        requires { level ≤ 9 }
        ensures { IfOk result (λ v. (t : Store Value) (r : TreeRoot) (f : FreshSeen)
            → IsWorking t r f self.now → map (λ c. arc_value c) v.items
            ≡ reverse (ups_of (9 - level) (standing self.now) level (rank key))) }
    {
        let mut path = Vec::new(alloc);
        self.add_ups(level, key, &mut path)?;
        path.reverse();
        Ok(path)
    }

    // Puts the standing cells that have a key, from a level on, behind the others.
    fn add_ups(&self, level: u8, key: Key, path: &mut Vec<Arc<Cell>>) -> Result<(), Memory>
        requires { level ≤ 9 }
        ensures { OnOk result (AreRangesApart (standing self.now)
            → map (λ c. arc_value c) path.new.items ≡ map (λ c. arc_value c) path.old.items
            ++ ups_of (9 - level) (standing self.now) level (rank key)) }
    {
        if level == 9 {
            return Ok(());
        }
        match self.cell_at(level, key) {
            None => Ok(()),
            Some(cell) => {
                path.push(Arc::try_clone(cell)?)?;
                self.add_ups(level + 1, key, path)
            }
        }
    }

    // The standing cell of a level that has a key.
    fn cell_at(&self, level: u8, key: Key) -> Option<&Arc<Cell>>
        ensures stands { IfSome result (λ c.
            IsAt (standing self.now) level (rank key) (arc_value c.now)) }
        ensures exact { AreRangesApart (standing self.now)
            → option_map (λ c. arc_value c) (option_copied result)
            ≡ cell_at (standing self.now) level (rank key) }
    {
        match self.kept.find(level, key) {
            Some(cell) => Some(cell),
            None => self.made.find(level, key),
        }
    }

    /// Puts a change of what stands in place: a cell of it has the number of one that stands if it stands at its place,
    /// and only then. The only error is want of memory: then the set is as it was.
    pub fn put_in_place(&mut self, alloc: Global, change: &Change) -> Result<(), Memory>
        requires { AreNamedByPlace self.old.kept change.now.old }
        ensures done { OnOk result (IsPutInPlace self.old change.now self.new) }
        ensures same { OnErr result (self.new ≡ self.old) }
    {
        let whole = follow(alloc, &self.change, change)?;
        let made = OrderedCells::from_cells(alloc, whole.new.as_slice())?;
        self.kept.take_out_all(change.old.as_slice());
        self.made = made;
        self.change = whole;
        Ok(())
    }
}
