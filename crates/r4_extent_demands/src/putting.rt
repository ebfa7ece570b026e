//! Values that are put into the ranges of extents (docs/volume.md, "Reach").

ghost use Rattle.std.specs.Prelude.{◌≡◌, ◌*◌, ◌<◌, ◌≤◌, IfOk, length, map};
ghost use Rattle.std.specs.Option.{option_copied, option_map};
ghost use Rattle.r4_base.specs.Key.{rank};
ghost use Rattle.r4_base.specs.Node.{items_of};
ghost use Rattle.r4_bodies.specs.r4_cell.Seen.{node_of};
ghost use Rattle.r4_content.specs.Held.{edits_of, interval_of};
ghost use Rattle.r4_bodies.specs.r4_leaf.Units.{leaf_bytes};
ghost use Rattle.r4_bodies.specs.r4_leaf_demands.Touching.{span_of};
ghost use Rattle.r4_bodies.specs.r4_leaf_edits.Made.{spread_keys};
ghost use Rattle.r4_bodies.specs.r4_leaf_edits.r4_reach.Needs.{leaves_for, put_among};
ghost use Rattle.r4_extent_demands.specs.Putting.{leaves_in, put_into};
ghost use Rattle.r4_extent_demands.specs.Sizes.{AreExtentEdits, IsSized};

use crate::extents::extents_of;
use crate::sized_body::SizedBody;
use r4_base::{Block, LEAF, Memory};
use r4_bodies::{Cell, KeyRange, bytes_after, edits_of_leaf, over};
use r4_content::{Edits, Interval};
use r4_graft::NodeMut;
use std::alloc::Global;

/// How many pointers come for values that are put among the extents of a twig, and are no bytes of the body: those of
/// one extent's range go to one new leaf, which may be too full (docs/volume.md, "Reach").
pub fn put_among(
    alloc: Global,
    body: Option<&SizedBody>,
    edits: &Edits,
    twig: &Cell,
) -> Result<u64, Memory>
    requires twig { twig.now.level ≡ 2 }
    requires edits { AreExtentEdits (option_copied body) (edits_of edits.now) }
    ensures count { IfOk result (λ n. n
        ≡ put_among (option_copied body.entry) (edits_of edits.now) (node_of twig.now)) }
    ensures few { IfOk result (λ n. n ≤ 56 * length (items_of twig.now.block)) }
{
    let ranges = extents_of(alloc, twig)?;
    let leaves = put_each(alloc, body, edits, ranges.as_slice())?;
    Ok(leaves)
}

// How many come for the values that are put into these ranges.
fn put_each(
    alloc: Global,
    body: Option<&SizedBody>,
    edits: &Edits,
    ranges: &[KeyRange],
) -> Result<u64, Memory>
    requires edits { AreExtentEdits (option_copied body) (edits_of edits.now) }
    requires few { length ranges.now < 65536 }
    ensures count { IfOk result (λ n. n
        ≡ leaves_in (option_copied body.entry) (edits_of edits.now) (map span_of ranges.now)) }
    ensures few { IfOk result (λ n. n ≤ 56 * length ranges.now) }
{
    match ranges.split_first() {
        None => Ok(0),
        Some((first, rest)) => {
            let leaves = leaves_for(alloc, body, edits, first)?;
            let others = put_each(alloc, body, edits, rest)?;
            Ok(leaves + others)
        }
    }
}

// How many come for the values that are put into a range.
fn leaves_for(
    alloc: Global,
    body: Option<&SizedBody>,
    edits: &Edits,
    range: &KeyRange,
) -> Result<u64, Memory>
    requires edits { AreExtentEdits (option_copied body) (edits_of edits.now) }
    ensures count { IfOk result (λ n. n
        ≡ leaves_for (put_into (option_copied body.entry) (edits_of edits.now)
        (rank range.now.from) (rank range.now.to))) }
    ensures few { IfOk result (λ n. n ≤ 56) }
{
    let bytes = bytes_put(alloc, body, edits, range)?;
    if bytes == 0 {
        return Ok(0);
    }
    Ok(1 + over(bytes))
}

// How many bytes the values that are put into a range have in a leaf of their own.
fn bytes_put(
    alloc: Global,
    body: Option<&SizedBody>,
    edits: &Edits,
    range: &KeyRange,
) -> Result<u64, Memory>
    requires edits { AreExtentEdits (option_copied body) (edits_of edits.now) }
    ensures bytes { IfOk result (λ n. n
        ≡ leaf_bytes (put_into (option_copied body.entry) (edits_of edits.now)
        (rank range.now.from) (rank range.now.to))) }
    ensures small { IfOk result (λ n. n < 58912) }
{
    let mut block = Block::zeroed(alloc)?;
    let leaf = NodeMut::format(&mut block, LEAF, 0);
    let made = edits_of_leaf(alloc, edits, keys_of(body), &range.from, &range.to)?;
    let items = made.items(alloc)?;
    let node = leaf.view();
    let bytes = bytes_after(alloc, &node, range.from, made.cuts(), items.as_slice())?;
    Ok(bytes)
}

/// All keys of a body that stands in extents afterwards, if there is one (docs/volume.md, "Reach").
pub fn keys_of(body: Option<&SizedBody>) -> Option<Interval>
    requires { IsSized (option_copied body) }
    ensures { option_map interval_of result ≡ spread_keys (option_copied body.entry) }
{
    match body {
        Some(body) => body.spread_keys(),
        None => None,
    }
}
