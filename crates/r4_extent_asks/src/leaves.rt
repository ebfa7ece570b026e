//! What a leaf asks for (docs/volume.md, "Reach").

ghost use Rattle.std.specs.Prelude.{◌≡◌, ◌+◌, ◌<◌, ◌≤◌, IfOk, IfSome, List, if◌then◌else◌};
ghost use Rattle.std.specs.Option.{option_copied, option_map};
ghost use Rattle.r4_base.specs.Key.{rank};
ghost use Rattle.r4_units.specs.r4_cell.Seen.{node_of};
ghost use Rattle.r4_content.specs.Held.{edits_of};
ghost use Rattle.r4_twig_asks.specs.r4_leaf.Units.{LeafUnit, leaf_bytes};
ghost use Rattle.r4_twig_asks.specs.r4_marking.Marks.{ask_seen};
ghost use Rattle.r4_twig_asks.specs.r4_reach.Needs.{come_of, is_gone, leaf_asks, over, units_after};
ghost use Rattle.r4_twig_asks.specs.r4_extent_demands.Sizes.{AreExtentEdits, IsSized};
ghost use Rattle.r4_extent_asks.specs.Behind.{IsComing, IsPartedIf, has_behind};

use r4_base::{Key, Memory};
use r4_content::Edits;
use r4_twig_asks::{
    Asking, KeyRange, SizedBody, asking_for, bytes_after, edits_of_leaf, keys_of, over, part_of,
};
use r4_units::Cell;
use std::alloc::Global;

/// What a leaf asks for, by the bytes of its units after the edits. One into whose range blocks of the body come is cut
/// in two where units stay before and behind them, and goes where none of its range is left.
pub(crate) fn leaf_asks(
    alloc: Global,
    body: Option<&SizedBody>,
    edits: &Edits,
    leaf: &Cell,
) -> Result<Option<Asking>, Memory>
    requires leaf { leaf.now.level ≡ 1 }
    requires edits { AreExtentEdits (option_copied body) (edits_of edits.now) }
    ensures asks { IfOk result (λ o. option_map ask_seen o
        ≡ leaf_asks (option_copied body.entry) (edits_of edits.now) (node_of leaf.now)) }
    ensures small { IfOk result (λ o. IfSome o (λ a. a.more ≤ 4096)) }
{
    if !leaf.lo().is_below(leaf.hi()) {
        return Ok(None);
    }
    let bytes = bytes_left(alloc, body, edits, leaf)?;
    let Some(come) = coming_into(body, leaf) else {
        return Ok(asking_for(false, over(bytes), false));
    };
    let parted = is_parted(alloc, body, edits, leaf, &come)?;
    let gone = is_gone(leaf, &come, bytes);
    Ok(asking_for(true, more_for(bytes, parted), gone))
}

// The keys of the blocks of the body that come, where one of them lies in the range of a leaf.
fn coming_into(body: Option<&SizedBody>, leaf: &Cell) -> Option<KeyRange>
    requires { IsSized (option_copied body) }
    ensures { IsComing (come_of (option_copied body.entry)) (rank leaf.now.lo) (rank leaf.now.hi)
        result }
{
    let come = body?.coming();
    let range = KeyRange {
        from: leaf.lo(),
        to: leaf.hi(),
    };
    part_of(&range, come.from, come.to)?;
    Some(come)
}

// How many bytes the units of a leaf have afterwards.
fn bytes_left(
    alloc: Global,
    body: Option<&SizedBody>,
    edits: &Edits,
    leaf: &Cell,
) -> Result<u64, Memory>
    requires leaf { leaf.now.level ≡ 1 }
    requires edits { AreExtentEdits (option_copied body) (edits_of edits.now) }
    requires some { rank leaf.now.lo ≤ rank leaf.now.hi }
    ensures bytes { IfOk result (λ n. n ≡ leaf_bytes
        (units_after (option_copied body.entry) (edits_of edits.now) (node_of leaf.now))) }
    ensures small { IfOk result (λ n. n < 58912) }
{
    let made = edits_of_leaf(alloc, edits, keys_of(body), &leaf.lo(), &leaf.hi())?;
    let items = made.items(alloc)?;
    let node = leaf.node();
    let bytes = bytes_after(alloc, &node, leaf.lo(), made.cuts(), items.as_slice())?;
    Ok(bytes)
}

// Whether blocks that come part a leaf in two: it has keys before them, and units that stay behind them.
fn is_parted(
    alloc: Global,
    body: Option<&SizedBody>,
    edits: &Edits,
    leaf: &Cell,
    come: &KeyRange,
) -> Result<bool, Memory>
    requires leaf { leaf.now.level ≡ 1 }
    requires edits { AreExtentEdits (option_copied body) (edits_of edits.now) }
    requires order { rank come.now.from ≤ rank come.now.to }
    ensures { IfOk result (λ t. IsPartedIf t (rank come.now.from, rank come.now.to)
        (node_of leaf.now)
        (units_after (option_copied body.entry) (edits_of edits.now) (node_of leaf.now))) }
{
    if !leaf.lo().is_below(come.from) {
        return Ok(false);
    }
    if !come.to.is_below(leaf.hi()) {
        return Ok(false);
    }
    let behind = has_behind(alloc, body, edits, leaf, come.to)?;
    Ok(behind)
}

// How many pointers a leaf asks for that needs so many bytes: one more where it is parted in two.
fn more_for(bytes: u64, parted: bool) -> u64
    requires { bytes < 58912 }
    ensures more { result ≡ over bytes + (if parted then 1 else 0) }
    ensures small { result ≤ 4096 }
{
    if parted {
        return over(bytes) + 1;
    }
    over(bytes)
}

// Whether nothing is left of the range of a leaf into which blocks come, whose units have so many bytes afterwards.
fn is_gone(leaf: &Cell, come: &KeyRange, bytes: u64) -> bool
    ensures { (us : List LeafUnit) → bytes ≡ leaf_bytes us → result
        ≡ is_gone (rank come.now.from, rank come.now.to) (node_of leaf.now) us }
{
    !leaf.lo().is_below(come.from) && bytes == 0
}

// Whether a leaf has units afterwards from a key on.
fn has_behind(
    alloc: Global,
    body: Option<&SizedBody>,
    edits: &Edits,
    leaf: &Cell,
    from: Key,
) -> Result<bool, Memory>
    requires leaf { leaf.now.level ≡ 1 }
    requires edits { AreExtentEdits (option_copied body) (edits_of edits.now) }
    requires low { rank leaf.now.lo ≤ rank from }
    requires high { rank from ≤ rank leaf.now.hi }
    ensures { IfOk result (λ t. t ≡ has_behind (rank from)
        (units_after (option_copied body.entry) (edits_of edits.now) (node_of leaf.now))) }
{
    let made = edits_of_leaf(alloc, edits, keys_of(body), &from, &leaf.hi())?;
    let items = made.items(alloc)?;
    let mut cuts = Vec::new(alloc);
    cuts.push(KeyRange {
        from: leaf.lo(),
        to: from,
    })?;
    cuts.extend_from_slice(made.cuts())?;
    let node = leaf.node();
    let bytes = bytes_after(alloc, &node, leaf.lo(), cuts.as_slice(), items.as_slice())?;
    Ok(bytes > 0)
}
