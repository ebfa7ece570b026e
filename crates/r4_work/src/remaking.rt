//! All edits of a leaf that stands, as one step (docs/volume.md, "The working set").

ghost use Rattle.std.specs.Prelude.{◌≡◌, ◌^◌, ◌≤◌, ℕ, OnErr, OnOk};
ghost use Rattle.r4_base.specs.Tree.{Root as TreeRoot, Store};
ghost use Rattle.r4_base.specs.Value.{Value};
ghost use Rattle.r4_edit.specs.r4_path.Steps.{OnlyTakes};
ghost use Rattle.r4_work.specs.Remaking.{Changes, IsRemade, IsRemakable, remade_keys, remade_values};
ghost use Rattle.r4_work.specs.Working.{IsWorking};

use crate::working::WorkingSet;
use r4_base::{Key, Memory};
use r4_edit::{Fresh, Given, KeyRange, change_leaf};
use std::alloc::Global;

impl WorkingSet {
    /// Cuts the units of some ranges of keys out of the standing leaf that has a key, and then puts some items into
    /// it, as `change_leaf` does, and puts that in place. The only error is want of memory: then the set and the
    /// numbers are as they were.
    pub fn remake(
        &mut self,
        alloc: Global,
        key: &Key,
        cuts: &[KeyRange],
        items: &[Given<'_>],
        fresh: &mut Fresh,
    ) -> Result<(), Memory>
        requires remakable { (t : Store Value) × ((r : TreeRoot)
            × IsRemakable t r fresh.old self.old key.now cuts.now items.now) }
        requires numbers { 2 ^ 63 ≤ fresh.old.next }
        ensures working { OnOk result ((t : Store Value) (r : TreeRoot)
            → IsRemakable t r fresh.old self.old key.now cuts.now items.now
            → IsWorking t r fresh.new self.new) }
        ensures effect { OnOk result ((t : Store Value) (r : TreeRoot)
            → IsRemakable t r fresh.old self.old key.now cuts.now items.now
            → Changes self.old self.new (remade_keys cuts.now items.now)
            (remade_values items.now)) }
        ensures remade { OnOk result ((t : Store Value) (r : TreeRoot)
            → IsRemakable t r fresh.old self.old key.now cuts.now items.now
            → IsRemade t r fresh.old fresh.new self.old self.new key.now cuts.now items.now) }
        ensures numbers { OnlyTakes fresh.old fresh.new }
        ensures unchanged { OnErr result ((self.new ≡ self.old) × (fresh.new ≡ fresh.old)) }
    {
        let _end = fresh.end;
        let path = self.path(alloc, key)?;
        let mut numbers = *fresh;
        let change = change_leaf(alloc, path.as_slice(), cuts, items, &mut numbers)?;
        self.put_in_place(alloc, &change)?;
        *fresh = numbers;
        Ok(())
    }
}
