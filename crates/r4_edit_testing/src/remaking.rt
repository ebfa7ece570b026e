//! All edits of the first of some leaves, for tests.

ghost use Rattle.std.specs.Prelude.{◌≡◌, ◌++◌, ◌≤◌, ◌-◌, ◌^◌, IfOk, IsTrue, min};
ghost use Rattle.r4_base.specs.Key.{IsKey, least, rank, top};
ghost use Rattle.r4_cell.specs.Seen.{node_of};
ghost use Rattle.r4_leaf.specs.Remade.{AreWithin, CanPutAll, cut_all, filled_tail, item_of};
ghost use Rattle.r4_leaf.specs.Units.{leaf_bytes};
ghost use Rattle.r4_edit.specs.Remaking.{after_edits};
ghost use Rattle.r4_edit_testing.specs.Remaking.{ArePut, IsTail, Stands};

use crate::trials::{are_leaves, is_item, numbers, path_over, stands_alone};
use r4_base::{Key, Memory, TAIL};
use r4_cell::{Cell, Change};
use r4_edit::change_leaf;
use r4_leaf::{Given, KeyRange, bytes_after};
use std::alloc::Global;
use std::sync::Arc;

/// More bytes than these are not tried.
const MOST: u64 = 58_911;

/// Makes all edits of the first of some leaves at once, all below one root: the units of some ranges go, and those of the
/// items' ranges, and then the items come. `None` where they are no leaves, or an item may not be put there: its range
/// begins at its key, it stands in it alone, and the ranges follow one another within the leaf.
pub fn remake(
    alloc: Global,
    leaves: &[Arc<Cell>],
    cuts: &[KeyRange],
    items: &[Given<'_>],
    ranges: &[KeyRange],
) -> Result<Option<Change>, Memory> {
    if !are_leaves(leaves) {
        return Ok(None);
    }
    let leaf = &leaves[0];
    if !are_put(alloc, leaf.lo(), leaf.hi(), items, ranges)? {
        return Ok(None);
    }
    let all = both(alloc, cuts, ranges)?;
    if size_after(alloc, leaf, &all, items)? > MOST {
        return Ok(None);
    }
    let mut fresh = numbers();
    let path = path_over(alloc, leaves, &mut fresh)?;
    let change = change_leaf(alloc, path.as_slice(), &all, items, &mut fresh)?;
    Ok(Some(change))
}

// The bytes of the leaf's units after the edits, as items of leaves without bounds on their number.
fn size_after(
    alloc: Global,
    leaf: &Cell,
    cuts: &[KeyRange],
    items: &[Given<'_>],
) -> Result<u64, Memory>
    requires level { leaf.now.level ≡ 1 }
    requires range { rank leaf.now.lo ≤ rank leaf.now.hi }
    requires within { AreWithin (rank leaf.now.lo) (rank leaf.now.hi) items.now }
    requires can { CanPutAll items.now (cut_all cuts.now (node_of leaf.now).units) }
    ensures { IfOk result (λ n. n
        ≡ min (leaf_bytes (after_edits cuts.now items.now leaf.now)) (2 ^ 64 - 1)) }
{
    bytes_after(alloc, &leaf.node(), leaf.lo(), cuts, items)
}

// The ranges of both.
fn both(alloc: Global, first: &[KeyRange], second: &[KeyRange]) -> Result<Vec<KeyRange>, Memory>
    ensures { IfOk result (λ v. v.items ≡ first.now ++ second.now) }
{
    let mut all = Vec::new(alloc);
    all.extend_from_slice(first)?;
    all.extend_from_slice(second)?;
    Ok(all)
}

// Whether each of the items stands alone in its range, and the ranges follow one another from one key up to another.
fn are_put(
    alloc: Global,
    lo: Key,
    hi: Key,
    items: &[Given<'_>],
    ranges: &[KeyRange],
) -> Result<bool, Memory>
    requires low { least ≤ rank lo }
    requires high { rank hi ≤ top }
    ensures { IfOk result (λ b. IsTrue b → ArePut (rank lo) (rank hi) items.now ranges.now) }
{
    let Some((item, more)) = items.split_first() else {
        return Ok(true);
    };
    let Some((range, rest)) = ranges.split_first() else {
        return Ok(false);
    };
    if range.from.is_below(lo) || hi.is_below(range.to) || !range.from.is_same(key_of(item)) {
        return Ok(false);
    }
    if !stands(alloc, item, range.to)? {
        return Ok(false);
    }
    are_put(alloc, range.to, hi, more, rest)
}

// The key of what is given.
fn key_of(given: &Given<'_>) -> Key
    ensures { result ≡ (item_of given.now).key }
{
    match given {
        Given::Item { key, .. } => *key,
        Given::Fill { key, .. } => *key,
    }
}

// Whether what is given may stand alone up to a key.
fn stands(alloc: Global, given: &Given<'_>, end: Key) -> Result<bool, Memory>
    requires low { least ≤ rank (item_of given.now).key }
    requires high { rank end ≤ top }
    ensures { IfOk result (λ b. IsTrue b → Stands (item_of given.now) (rank end)) }
{
    match given {
        Given::Item { key, plugin, body } => item_stands(alloc, *key, *plugin, body, end),
        Given::Fill { key, count, byte } => Ok(fill_stands(*key, *count, *byte, end)),
    }
}

// Whether an item may stand alone up to a key.
fn item_stands(alloc: Global, key: Key, plugin: u16, body: &[u8], end: Key) -> Result<bool, Memory>
    requires low { least ≤ rank key }
    requires high { rank end ≤ top }
    ensures { IfOk result (λ b. IsTrue b
        → Stands (record { key = key; plugin = plugin; body = body.now }) (rank end)) }
{
    if plugin == TAIL {
        return Ok(is_tail(key, body.len(), end));
    }
    if !is_item(plugin, body) {
        return Ok(false);
    }
    stands_alone(alloc, &key, end, plugin, body)
}

// Whether so many bytes of one value may stand up to a key.
fn fill_stands(key: Key, count: u16, byte: u8, end: Key) -> bool
    ensures { IsTrue result → Stands (filled_tail key count byte) (rank end) }
{
    let _ = byte;
    is_tail(key, usize::from(count), end)
}

// Whether so many bytes of a tail may stand from one key on and below another.
fn is_tail(key: Key, count: usize, end: Key) -> bool
    ensures { IsTrue result → IsKey key × IsTail key count (rank end) }
{
    if count == 0 || count > 16_384 || key.el[3] > 16_384 - count as u64 {
        return false;
    }
    !end.is_below(key.behind(count as u64))
}
