//! Data blocks get other bytes, as one step.

ghost use Rattle.std.specs.Prelude.{◌≡◌, List, map, OnErr, OnOk};
ghost use Rattle.std.specs.Arc.{arc_value};
ghost use Rattle.r4_base.specs.Tree.{Root as TreeRoot, Store};
ghost use Rattle.r4_base.specs.Value.{Value};
ghost use Rattle.r4_measure.specs.r4_cell.declared.change.Fresh.{Fresh as FreshSeen};
ghost use Rattle.r4_twig_work.specs.Renewing.{DoesRenew, IsRenewable, IsRenewed, Renewal};
ghost use Rattle.r4_measure.specs.r4_work.Working.{IsWorking};

use r4_base::Memory;
use r4_measure::{Cell, Cells, Change, WorkingSet};
use std::alloc::Global;
use std::sync::Arc;

/// Puts data blocks in the place of others of the same names and ranges, as one change; the twigs that name them are not
/// touched. No number is taken, and where the others stood, as many cells stand as before. The only error is want of
/// memory: then the set is as it was.
pub fn renew(
    alloc: Global,
    set: &mut WorkingSet,
    old: Vec<Arc<Cell>>,
    new: Vec<Arc<Cell>>,
) -> Result<(), Memory>
    requires can { (t : Store Value) × ((r : TreeRoot) × ((f : FreshSeen) × ((ps : List Renewal)
        × IsRenewable t r f set.old (map (λ c. arc_value c) old.items)
        (map (λ c. arc_value c) new.items) ps))) }
    ensures working { OnOk result ((t : Store Value) (r : TreeRoot) (f : FreshSeen)
        (ps : List Renewal) → IsRenewable t r f set.old (map (λ c. arc_value c) old.items)
        (map (λ c. arc_value c) new.items) ps → IsWorking t r f set.new) }
    ensures effect { OnOk result ((t : Store Value) (r : TreeRoot) (f : FreshSeen)
        (ps : List Renewal) → IsRenewable t r f set.old (map (λ c. arc_value c) old.items)
        (map (λ c. arc_value c) new.items) ps → DoesRenew set.old set.new ps) }
    ensures renewed { OnOk result ((t : Store Value) (r : TreeRoot) (f : FreshSeen)
        (ps : List Renewal) → IsRenewable t r f set.old (map (λ c. arc_value c) old.items)
        (map (λ c. arc_value c) new.items) ps
        → IsRenewed t r f set.old set.new (map (λ c. arc_value c) old.items)
        (map (λ c. arc_value c) new.items)) }
    ensures unchanged { OnErr result (set.new ≡ set.old) }
{
    let change = Change {
        old: Cells::from_vec(old),
        new: Cells::from_vec(new),
        root: None,
    };
    set.put_in_place(alloc, &change)
}
