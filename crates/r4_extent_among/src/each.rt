//! Values are put among the extents of several twigs (docs/volume.md, "Bodies in extents").

ghost use Rattle.std.specs.Prelude.{IfOk, map};
ghost use Rattle.std.specs.Arc.{arc_value};
ghost use Rattle.std.specs.Option.{option_copied};
ghost use Rattle.r4_base.specs.Tree.{Root as TreeRoot, Store};
ghost use Rattle.r4_base.specs.Value.{Value};
ghost use Rattle.r4_content.specs.Held.{edits_of};
ghost use Rattle.r4_extent_build.specs.r4_extent_demands.Sizes.{AreExtentEdits};
ghost use Rattle.r4_extent_among.specs.AmongEach.{CanPutEach, HasPutEach};

use crate::putting::put_among;
use r4_base::Memory;
use r4_build::{Cell, Fresh, add};
use r4_content::Edits;
use r4_extent_build::{SizedBody, WorkingSet};
use std::alloc::Global;
use std::sync::Arc;

/// Packs standing twigs anew, one after the other, each as `put_among` does. It gives the new
/// leaves of all. The only error is want of memory; then some may have been packed, and numbers may
/// have been taken (docs/volume.md, "Bodies in extents").
pub fn put_among_each(
    alloc: Global,
    set: &mut WorkingSet,
    body: Option<&SizedBody>,
    edits: &Edits,
    twigs: &[Arc<Cell>],
    fresh: &mut Fresh,
) -> Result<Vec<Arc<Cell>>, Memory>
    requires edits { AreExtentEdits (option_copied body) (edits_of edits.now) }
    requires can { (t : Store Value) × ((r : TreeRoot) × CanPutEach (option_copied body)
        (edits_of edits.now) t r (map (λ c. arc_value c) twigs.now) fresh.old set.old) }
    ensures { IfOk result (λ v. HasPutEach (option_copied body.entry) (edits_of edits.now)
        (map (λ c. arc_value c) twigs.now) fresh.old fresh.new set.old set.new
        (map (λ c. arc_value c) v.items)) }
{
    match twigs.split_first() {
        None => Ok(Vec::new(alloc)),
        Some((first, rest)) => {
            let mut leaves = put_among(alloc, set, body, edits, first, fresh)?;
            let others = put_among_each(alloc, set, body, edits, rest, fresh)?;
            add(&mut leaves, others.as_slice())?;
            Ok(leaves)
        }
    }
}
