//! The leaves of values that come into the ranges of a twig's extents (docs/volume.md, "Bodies in
//! extents").

ghost use Rattle.std.specs.Prelude.{◌≡◌, ◌+◌, ◌<◌, ◌≤◌, ◌∷◌, [], IfOk, Contains, length, map};
ghost use Rattle.std.specs.Arc.{arc_value};
ghost use Rattle.std.specs.Option.{option_copied};
ghost use Rattle.r4_base.specs.Key.{rank};
ghost use Rattle.r4_base.specs.Node.{mkfs_id_of};
ghost use Rattle.r4_extent_build.specs.r4_cell.Seen.{node_of};
ghost use Rattle.r4_content.specs.Held.{edits_of};
ghost use Rattle.r4_extent_build.specs.r4_edit.LeafParts.{IsEmptyLeaf};
ghost use Rattle.r4_extent_build.specs.r4_extent_demands.Putting.{leaves_in, put_into};
ghost use Rattle.r4_extent_build.specs.r4_extent_demands.Sizes.{AreExtentEdits};
ghost use Rattle.r4_build.specs.r4_leaf.Leaves.{AreFew, HaveMkfsId, Packs};
ghost use Rattle.r4_build.specs.r4_leaf.declared.remaking.KeyRange.{KeyRange as RangeSeen};
ghost use Rattle.r4_extent_build.specs.r4_leaf_demands.Touching.{span_of};
ghost use Rattle.r4_build.specs.r4_path.Nodes.{IsNodeOf};
ghost use Rattle.r4_build.specs.r4_reach.Needs.{leaves_for};
ghost use Rattle.r4_extent_among.specs.Among.{AreLeavesFor, AreLeavesIn, numbered};
ghost use Rattle.r4_extent_among.specs.Making.{ArePackedFrom, IsLeafRange};

use r4_base::{Block, LEAF, Memory, NodeId};
use r4_build::{
    Cell, Cells, Fresh, KeyRange, Leaf, Level, add, edits_of_leaf, leaf_level, new_cell, remake,
    right_part, take_number,
};
use r4_content::Edits;
use r4_extent_build::{NodeMut, SizedBody, keys_of};
use std::alloc::Global;
use std::sync::Arc;

/// The leaves of the values that come into some ranges of extents, one range after the other, with
/// the next numbers. The only error is want of memory; then numbers may have been taken.
pub(crate) fn leaves_in(
    alloc: Global,
    body: Option<&SizedBody>,
    edits: &Edits,
    mkfs_id: u32,
    ranges: &[KeyRange],
    fresh: &mut Fresh,
) -> Result<Vec<Arc<Cell>>, Memory>
    requires edits { AreExtentEdits (option_copied body) (edits_of edits.now) }
    requires ranges { (r : RangeSeen) → Contains ranges.now r → IsLeafRange r }
    requires numbers { fresh.old.next + (leaves_in (option_copied body) (edits_of edits.now)
        (map span_of ranges.now) + 2) ≤ fresh.old.end }
    ensures leaves { IfOk result (λ v. AreLeavesIn (option_copied body.entry) (edits_of edits.now)
        mkfs_id (map span_of ranges.now) (map (λ c. arc_value c) v.items)) }
    ensures numbered { IfOk result (λ v. map (λ c. arc_value c) v.items
        ≡ numbered fresh.old.next (map (λ c. arc_value c) v.items)) }
    ensures fresh { IfOk result (λ v. fresh.new ≡ record fresh.old {
      next = fresh.old.next + length (map (λ c. arc_value c) v.items);
    }) }
{
    match ranges.split_first() {
        None => Ok(Vec::new(alloc)),
        Some((first, rest)) => {
            let mut leaves = leaves_for(alloc, body, edits, mkfs_id, first, fresh)?;
            let others = leaves_in(alloc, body, edits, mkfs_id, rest, fresh)?;
            add(&mut leaves, others.as_slice())?;
            Ok(leaves)
        }
    }
}

// The leaves of the values that come into one range. A number that is taken for the first one is
// given back where there is none.
fn leaves_for(
    alloc: Global,
    body: Option<&SizedBody>,
    edits: &Edits,
    mkfs_id: u32,
    range: &KeyRange,
    fresh: &mut Fresh,
) -> Result<Vec<Arc<Cell>>, Memory>
    requires edits { AreExtentEdits (option_copied body) (edits_of edits.now) }
    requires range { IsLeafRange range.now }
    requires numbers { fresh.old.next + (leaves_for (put_into (option_copied body)
        (edits_of edits.now) (rank range.now.from) (rank range.now.to)) + 2) ≤ fresh.old.end }
    ensures leaves { IfOk result (λ v. AreLeavesFor
        (put_into (option_copied body.entry) (edits_of edits.now)
        (rank range.now.from) (rank range.now.to))
        (rank range.now.to) mkfs_id (map (λ c. arc_value c) v.items)) }
    ensures numbered { IfOk result (λ v. map (λ c. arc_value c) v.items
        ≡ numbered fresh.old.next (map (λ c. arc_value c) v.items)) }
    ensures fresh { IfOk result (λ v. fresh.new ≡ record fresh.old {
      next = fresh.old.next + length (map (λ c. arc_value c) v.items);
    }) }
{
    let mut numbers = *fresh;
    let packed = packed_leaves(alloc, body, edits, mkfs_id, range, &mut numbers)?;
    let Some((leaf, others)) = packed.as_slice().split_first() else {
        return Ok(Vec::new(alloc));
    };
    let Some(first) = right_part(alloc, leaf, &range.from, &mut numbers)? else {
        return Ok(Vec::new(alloc));
    };
    *fresh = numbers;
    with_first(alloc, first, others)
}

// The leaves that have the values of a range and share it out, from its first key on: one at least,
// whether there are values or not.
fn packed_leaves(
    alloc: Global,
    body: Option<&SizedBody>,
    edits: &Edits,
    mkfs_id: u32,
    range: &KeyRange,
    fresh: &mut Fresh,
) -> Result<Cells, Memory>
    requires edits { AreExtentEdits (option_copied body) (edits_of edits.now) }
    requires range { IsLeafRange range.now }
    requires numbers { fresh.old.next + (leaves_for (put_into (option_copied body)
        (edits_of edits.now) (rank range.now.from) (rank range.now.to)) + 2) ≤ fresh.old.end }
    ensures packed { IfOk result (λ v. ArePackedFrom
        (put_into (option_copied body.entry) (edits_of edits.now)
        (rank range.now.from) (rank range.now.to))
        (rank range.now.from) (rank range.now.to) mkfs_id fresh.old.next v) }
    ensures fresh { IfOk result (λ v. fresh.new
        ≡ record fresh.old { next = fresh.old.next + length v }) }
{
    let id = take_number(fresh);
    let leaf = empty_leaf(alloc, id, range, mkfs_id)?;
    let leaves = leaves_made(alloc, body, edits, mkfs_id, &leaf)?;
    let Level { new, .. } = leaf_level(alloc, &leaf, leaves, fresh)?;
    Ok(new)
}

// The leaves that a leaf without units becomes where it gets what the edits put into its range.
fn leaves_made(
    alloc: Global,
    body: Option<&SizedBody>,
    edits: &Edits,
    mkfs_id: u32,
    leaf: &Cell,
) -> Result<Vec<Leaf>, Memory>
    requires edits { AreExtentEdits (option_copied body) (edits_of edits.now) }
    requires level { leaf.now.level ≡ 1 }
    requires range { rank leaf.now.lo < rank leaf.now.hi }
    requires units { (node_of leaf.now).units ≡ [] }
    ensures packs { IfOk result (λ v. Packs (rank leaf.now.lo) (rank leaf.now.hi)
        (put_into (option_copied body.entry) (edits_of edits.now)
        (rank leaf.now.lo) (rank leaf.now.hi)) v.items) }
    ensures few { IfOk result (λ v. AreFew
        (put_into (option_copied body.entry) (edits_of edits.now)
        (rank leaf.now.lo) (rank leaf.now.hi)) v.items) }
    ensures mkfs_id { IfOk result (λ v. HaveMkfsId mkfs_id v.items) }
{
    let gets = edits_of_leaf(alloc, edits, keys_of(body), &leaf.lo(), &leaf.hi())?;
    let items = gets.items(alloc)?;
    remake(
        alloc,
        &leaf.node(),
        leaf.lo(),
        mkfs_id,
        gets.cuts(),
        items.as_slice(),
    )
}

// A leaf without units, for a range.
fn empty_leaf(
    alloc: Global,
    id: NodeId,
    range: &KeyRange,
    mkfs_id: u32,
) -> Result<Arc<Cell>, Memory>
    ensures { IfOk result (λ c. IsEmptyLeaf id.0 range.now.from range.now.to mkfs_id
        (arc_value c)) }
{
    let mut block = Block::zeroed(alloc)?;
    format_leaf(&mut block, mkfs_id);
    new_cell(alloc, id, LEAF, range.from, range.to, block)
}

// Makes the block a leaf without items.
fn format_leaf(block: &mut Block, mkfs_id: u32)
    ensures node { IsNodeOf 1 [] block.new }
    ensures mkfs_id { mkfs_id_of block.new ≡ mkfs_id }
{
    let _ = NodeMut::format(block, LEAF, mkfs_id);
}

// A cell, and others behind it, which are shared.
fn with_first(
    alloc: Global,
    first: Arc<Cell>,
    others: &[Arc<Cell>],
) -> Result<Vec<Arc<Cell>>, Memory>
    ensures { IfOk result (λ v. map (λ c. arc_value c) v.items
        ≡ arc_value first ∷ map (λ c. arc_value c) others.now) }
{
    let mut all = Vec::new(alloc);
    all.push(first)?;
    add(&mut all, others)?;
    Ok(all)
}
