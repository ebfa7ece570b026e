//! Twigs of a growing body that are packed anew one after the other (docs/volume.md, "Bodies in extents").

ghost use Rattle.std.specs.Prelude.{◌≡◌, ◌+◌, ◌^◌, ◌≤◌, OnOk, map};
ghost use Rattle.std.specs.Arc.{arc_value};
ghost use Rattle.r4_base.specs.Tree.{Root as TreeRoot, Store};
ghost use Rattle.r4_base.specs.Value.{Value};
ghost use Rattle.r4_extent_demands.specs.r4_cell.declared.change.Fresh.{Fresh as FreshSeen};
ghost use Rattle.r4_content.specs.Held.{edits_of};
ghost use Rattle.r4_twig_turns.specs.Turning.{IsTurned, behind, own_of};
ghost use Rattle.r4_twig_turns.specs.r4_twig_work.Regrafting.{DoesBelow, IsRegraftable};
ghost use Rattle.r4_extent_demands.specs.Sizes.{IsSizedBody};
ghost use Rattle.r4_extent_build.specs.Looping.{AreTurned, CanTurnAll, IsTwigFor};
ghost use Rattle.r4_extent_build.specs.Looping.{behind_all, turns_of};
ghost use Rattle.r4_extent_build.specs.Turns.{growing_turn};

use crate::numbering::{NumberedTwig, numbered};
use r4_base::Memory;
use r4_content::Edits;
use r4_extent_blocks::{Cell, Fresh};
use r4_extent_demands::SizedBody;
use r4_twig_turns::{Below, WorkingSet, regraft};
use std::alloc::Global;
use std::sync::Arc;

/// How many numbers each twig has of its own, for the twigs and nodes that may come beside it and above.
const OWN_NUMBERS: u64 = 64;

/// Packs the standing twigs of a body anew of which cells are given, one after the other: each gets the pieces that it
/// has after the edits, and the data blocks that come. They take the first numbers, and 64 more are the twig's own,
/// whether it needs them or not. The only error is want of memory; then some may have been packed, and numbers may have
/// been taken (docs/volume.md, "Bodies in extents").
pub fn regraft_each(
    alloc: Global,
    set: &mut WorkingSet,
    body: &SizedBody,
    edits: &Edits,
    twigs: &[Arc<Cell>],
    fresh: &mut Fresh,
) -> Result<(), Memory>
    requires sized { IsSizedBody body.now }
    requires can { (t : Store Value) × ((r : TreeRoot) × CanTurnAll body.now (edits_of edits.now)
        t r (map (λ c. arc_value c) twigs.now) fresh.old set.old) }
    ensures turned { OnOk result ((t : Store Value) (r : TreeRoot)
        → CanTurnAll body.now (edits_of edits.now) t r (map (λ c. arc_value c) twigs.now)
        fresh.old set.old
        → AreTurned t r (turns_of body.now (edits_of edits.now) (map (λ c. arc_value c) twigs.now))
        fresh.old set.old set.new) }
    ensures left { OnOk result (fresh.new ≡ behind_all
        (turns_of body.now (edits_of edits.now) (map (λ c. arc_value c) twigs.now)) fresh.old) }
{
    match twigs.split_first() {
        None => Ok(()),
        Some((first, rest)) => {
            regraft_one(alloc, set, body, edits, first, fresh)?;
            regraft_each(alloc, set, body, edits, rest, fresh)?;
            Ok(())
        }
    }
}

// Packs one of them anew.
fn regraft_one(
    alloc: Global,
    set: &mut WorkingSet,
    body: &SizedBody,
    edits: &Edits,
    twig: &Cell,
    fresh: &mut Fresh,
) -> Result<(), Memory>
    requires sized { IsSizedBody body.now }
    requires twig { IsTwigFor body.now (edits_of edits.now) twig.now }
    requires can { let e = growing_turn body.now (edits_of edits.now) twig.now in
        (t : Store Value) × ((r : TreeRoot) × IsRegraftable t r (own_of e fresh.old) set.old e.key
        (e.pieces fresh.old.next) (e.beside fresh.old.next) (fresh.old.next + e.blocks)) }
    requires low { 2 ^ 63 ≤ fresh.old.next }
    requires numbers { let e = growing_turn body.now (edits_of edits.now) twig.now in
        fresh.old.next + (e.blocks + (e.leaves + 64)) ≤ fresh.old.end }
    ensures turned { let e = growing_turn body.now (edits_of edits.now) twig.now in
        OnOk result ((t : Store Value) (r : TreeRoot)
        → IsRegraftable t r (own_of e fresh.old) set.old e.key (e.pieces fresh.old.next)
        (e.beside fresh.old.next) (fresh.old.next + e.blocks)
        → (after : FreshSeen) × IsTurned t r e fresh.old after set.old set.new) }
    ensures does { let e = growing_turn body.now (edits_of edits.now) twig.now in
        OnOk result ((t : Store Value) (r : TreeRoot)
        → IsRegraftable t r (own_of e fresh.old) set.old e.key (e.pieces fresh.old.next)
        (e.beside fresh.old.next) (fresh.old.next + e.blocks)
        → DoesBelow set.old set.new e.key (e.pieces fresh.old.next) (e.beside fresh.old.next)) }
    ensures left { OnOk result (fresh.new
        ≡ behind (growing_turn body.now (edits_of edits.now) twig.now) fresh.old) }
{
    // the end of the numbers is a u64, so no sum up to there overflows
    let _end = fresh.end;
    let NumberedTwig { pieces, blocks } = numbered(alloc, body, edits, twig, fresh)?;
    let mut own = Fresh {
        next: fresh.next,
        end: fresh.next + OWN_NUMBERS,
    };
    let below = Below {
        old: Vec::new(alloc),
        new: Vec::new(alloc),
        blocks,
    };
    regraft(alloc, set, &twig.lo(), pieces.as_slice(), below, &mut own)?;
    fresh.next += OWN_NUMBERS;
    Ok(())
}
