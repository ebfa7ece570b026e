//! All edits of a command of which values come among extents, as one change (docs/volume.md,
//! "Bodies in extents").

ghost use Rattle.std.specs.Prelude.{◌≡◌, ◌≤◌, Contains, IfErr, IfOk, length, map};
ghost use Rattle.std.specs.Arc.{arc_value};
ghost use Rattle.std.specs.Option.{option_copied};
ghost use Rattle.r4_base.specs.Tree.{Store};
ghost use Rattle.r4_base.specs.Value.{Value};
ghost use Rattle.r4_content.specs.Held.{edits_of};
ghost use Rattle.r4_extent_turned.specs.r4_extent_growth.r4_build.Building.{AreNumbered, set_by};
ghost use Rattle.r4_extent_turned.specs.r4_extent_growth.r4_extent_demands.Sizes.{AreExtentEdits};
ghost use Rattle.r4_extent_turned.specs.r4_extent_growth.r4_measure.Budget.{Budget};
ghost use Rattle.r4_extent_turned.specs.r4_extent_growth.r4_measure.r4_cell.Patch.{IsChange, root_of_pair};
ghost use Rattle.r4_extent_turned.specs.r4_extent_growth.r4_measure.r4_cell.Seen.{CellSeen};
ghost use Rattle.r4_extent_turned.specs.r4_extent_growth.r4_measure.r4_patch.Effect.{HasEffect};
ghost use Rattle.r4_extent_turned.specs.r4_extent_growth.r4_measure.r4_patch.Joining.{patch_of_change};
ghost use Rattle.r4_extent_turned.specs.r4_extent_growth.r4_measure.r4_patch.Part.{MeetsPart};
ghost use Rattle.r4_extent_turned.specs.r4_extent_growth.r4_measure.r4_path.Steps.{OnlyTakes};
ghost use Rattle.r4_extent_put.specs.Putting.{CanPut, LeavesHaveRoom, most_put};
ghost use Rattle.r4_extent_put.specs.Whole.{put_keys};

use crate::finding::putting_among;
use r4_base::Memory;
use r4_content::Edits;
use r4_extent_among::put_among_each;
use r4_extent_turned::{Cell, Change, Fresh, Root, SizedBody, WorkingSet};
use r4_leaf_steps::edit_each;
use std::alloc::Global;
use std::sync::Arc;

/// Makes all edits of a command of which values come among extents, and gives them as one change of
/// the cells of its task, in a tree with this root; its body, if it has one, stands in no extents
/// afterwards. Each twig among whose extents values come is packed anew once, with pointers to new
/// leaves that have these values; then each leaf among the cells that changes is edited once: it is
/// parted where it has no room, as long as the cells above it suffice. What the edits cut where
/// neither a leaf is nor a value comes stays. Where leaves have room, it has no more new cells than
/// the budget has, and the leaves that come. The only error is want of memory, also where the cells
/// above a leaf do not suffice, or numbers lack: then the numbers are as they were (docs/volume.md,
/// "Bodies in extents").
pub fn change_of_putting(
    alloc: Global,
    root: &Root,
    cells: &[Arc<Cell>],
    body: Option<&SizedBody>,
    edits: &Edits,
    fresh: &mut Fresh,
) -> Result<Change, Memory>
    requires can { (u : Budget) × ((t : Store Value)
        × CanPut (option_copied body) (edits_of edits.now) u t (root_of_pair root.now) fresh.old
        (map (λ c. arc_value c) cells.now)) }
    requires suits { AreExtentEdits (option_copied body) (edits_of edits.now) }
    ensures change { IfOk result (λ d. IsChange d.old d.new d.root) }
    ensures meets { IfOk result (λ d. (u : Budget) (t : Store Value)
        → CanPut (option_copied body.entry) (edits_of edits.now) u t (root_of_pair root.now)
        fresh.old (map (λ c. arc_value c) cells.now)
        → MeetsPart (patch_of_change d) t (root_of_pair root.now)) }
    ensures few { IfOk result (λ d. (u : Budget) (t : Store Value)
        → CanPut (option_copied body.entry) (edits_of edits.now) u t (root_of_pair root.now)
        fresh.old (map (λ c. arc_value c) cells.now)
        → LeavesHaveRoom (option_copied body.entry) (edits_of edits.now)
        (map (λ c. arc_value c) cells.now)
        → length d.new ≤ most_put (option_copied body.entry) (edits_of edits.now) u
        (root_of_pair root.now) (map (λ c. arc_value c) cells.now)) }
    ensures effect { IfOk result (λ d. HasEffect (patch_of_change d)
        (put_keys (option_copied body.entry) (edits_of edits.now)
        (map (λ c. arc_value c) cells.now))
        (set_by (edits_of edits.now))) }
    ensures old { IfOk result (λ d. (c : CellSeen) → Contains d.old c
        → Contains (map (λ x. arc_value x) cells.now) c) }
    ensures new { IfOk result (λ d. AreNumbered fresh.old fresh.new d) }
    ensures numbers { OnlyTakes fresh.old fresh.new }
    ensures unchanged { IfErr result (λ e. fresh.new ≡ fresh.old) }
{
    let mut set = WorkingSet::new(alloc, cells)?;
    let mut numbers = *fresh;
    let twigs = putting_among(alloc, body, edits, cells)?;
    put_among_each(alloc, &mut set, body, edits, twigs.as_slice(), &mut numbers)?;
    edit_each(alloc, &mut set, root, cells, edits, &mut numbers)?;
    *fresh = numbers;
    Ok(set.into_change())
}
