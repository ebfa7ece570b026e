//! What stands at keys that one cell holds.

ghost use Rattle.std.specs.Prelude.{◌≡◌, ◌⊎◌, ◌+◌, ◌-◌, ◌*◌, ◌^◌, ◌≤◌, ◌<◌, ◌==◌, ◌&&◌, length, slice_index, true};
ghost use Rattle.std.specs.Prelude.{None, IfErr, IfNone, IfOk, IfSome};
ghost use Rattle.r4_base.specs.Cell.{bytes_from};
ghost use Rattle.r4_base.specs.Extents.{blocks_in, body_fault, units_of};
ghost use Rattle.r4_base.specs.Key.{IsKey, least, offset_of, rank, top};
ghost use Rattle.r4_units.specs.r4_cell.Seen.{node_of};
ghost use Rattle.r4_content.specs.Seen.{pairs_in};
ghost use Rattle.r4_node40.specs.View.{item_shown};
ghost use Rattle.r4_units.specs.r4_search.Path.{root_name};
ghost use Rattle.r4_units.specs.r4_search.Pool.{Goes, IsKnown, IsMet, IsOf, KnowsNames, LeavesDevice, StandsInMemory};
ghost use Rattle.r4_sight.specs.Parts.{AreFull, all_pairs};
ghost use Rattle.r4_sight.specs.Stretches.{IsBlockAt, IsBlockOf, IsItOrOf, IsStretch, IsStretchOf, IsWaysEnd};
ghost use Rattle.r4_sight.specs.Stretches.{Looks, MeetsBlock, StopsAt};

use crate::items::{parts_of, run_of};
use r4_base::{BLOCK_BYTES, Block, Key, LEAF, Memory, NodeId, Unit};
use r4_content::{Interval, SeenPart};
use r4_node40::ItemView;
use r4_units::{Cell, FetchFault, Pool, Root, cover, place_of, unit_of};
use std::alloc::Global;

/// What stands at the keys from one on, up to but without an end (docs/volume.md, "Sight").
#[derive(Drop)]
pub struct Stretch {
    pub parts: Vec<SeenPart>,
    pub to: Key,
}

/// What stands at the keys from one on, as far as the cell goes that holds it, and no further than an end: in a leaf,
/// in a data block, in a hole, a block of it at a time, or behind what an extent has, where nothing stands
/// (docs/volume.md, "Sight"). The cell is the one that the pool keeps, or of the block that its name means; what the
/// pool met from then on are the cells of the way to it, and it. `Read` and `Damaged` name a block that such cells lead
/// to and that is refused; `Memory` comes where a growth was refused.
pub fn stretch_from<P: Pool>(
    alloc: Global,
    pool: &mut P,
    root: &Root,
    from: Key,
    to: Key,
) -> Result<Stretch, FetchFault>
    requires some { 1 ≤ root.now.height }
    requires known { IsKnown (P.state pool.old) (root_name root.now) }
    requires from { least ≤ rank from }
    requires below { rank from < top }
    requires order { rank from < rank to }
    ensures goes { Goes (P.state pool.old) (P.state pool.new) }
    ensures device { LeavesDevice (P.device pool.old) (P.device pool.new) }
    ensures looks { Looks root.now (rank from) (P.state pool.old) (P.state pool.new) }
    ensures stretch { IfOk result (IsStretch (IsOf (P.state pool.old))
        (P.state pool.new) (rank from) (rank to)) }
    ensures err { IfErr result (λ e. StopsAt (rank from) (P.state pool.old) e (P.state pool.new)) }
{
    let mut path = cover(alloc, pool, root, &from)?;
    match path.pop() {
        Some(cell) => stretch_in(alloc, pool, &cell, cell.hi(), from, to),
        None => unreachable!(),
    }
}

// The same where the cell is at hand at which the way ends, and the end of its keys.
fn stretch_in<P: Pool>(
    alloc: Global,
    pool: &mut P,
    cell: &Cell,
    hi: Key,
    from: Key,
    to: Key,
) -> Result<Stretch, FetchFault>
    requires end { IsWaysEnd (P.state pool.old) (rank from) cell.now }
    requires hi { hi ≡ cell.now.hi }
    requires order { rank from < rank to }
    ensures goes { Goes (P.state pool.old) (P.state pool.new) }
    ensures device { LeavesDevice (P.device pool.old) (P.device pool.new) }
    ensures block { MeetsBlock (rank from) (P.state pool.old) (P.state pool.new) }
    ensures stretch { IfOk result (IsStretch (IsItOrOf (P.state pool.old) cell.now)
        (P.state pool.new) (rank from) (rank to)) }
    ensures err { IfErr result (λ e. StopsAt (rank from) (P.state pool.old) e (P.state pool.new)) }
{
    let node = cell.node();
    if cell.level() == LEAF {
        return Ok(of_leaf(alloc, cell, from, to)?);
    }
    let place = place_of(&node, hi, &from);
    let item = node.item(place);
    match block_at(&item, from) {
        Some(found) => of_block(alloc, pool, cell, found, from, to),
        None => Ok(Stretch {
            parts: Vec::new(alloc),
            to: lesser(to, node.key_behind(place, hi)),
        }),
    }
}

// What a leaf has from a key on.
fn of_leaf(alloc: Global, leaf: &Cell, from: Key, to: Key) -> Result<Stretch, Memory>
    requires level { leaf.now.level ≡ 1 }
    requires from { rank leaf.now.lo ≤ rank from }
    requires below { rank from < rank leaf.now.hi }
    requires order { rank from < rank to }
    ensures stretch { IfOk result (IsStretchOf (node_of leaf.now) (rank from) (rank to)) }
    ensures far { IfOk result (λ s. (rank s.to ≡ rank to) ⊎ (rank s.to ≡ rank leaf.now.hi)) }
{
    let to = lesser(to, leaf.hi());
    let parts = parts_of(alloc, leaf, Interval { from, to })?;
    Ok(Stretch { parts, to })
}

// A block of an extent as a unit of one block, and the key of its first byte.
#[derive(Clone, Copy)]
pub(crate) struct DataBlock {
    pub unit: Unit,
    pub lo: Key,
}

// The block of an extent that has a key, at or above the extent's first.
fn block_at(item: &ItemView<'_>, key: Key) -> Option<DataBlock>
    requires is_key { IsKey item.now.key }
    requires few { length item.now.body.now < 16 * 65536 }
    requires good { body_fault true (2 ^ 64) item.now.body.now ≡ None }
    requires fits { offset_of item.now.key + 4096 * blocks_in
        (units_of item.now.body.now) ≤ 2 ^ 64 }
    requires from { rank item.now.key ≤ rank key }
    ensures some { IfSome result (IsBlockAt (item_shown item.now) (rank key)) }
    ensures none { IfNone result
        (rank item.now.key + 4096 * blocks_in (units_of item.now.body.now) ≤ rank key) }
{
    if !is_of_one_body(item.key, key) {
        return None;
    }
    let block = (key.el[3] - item.key.el[3]) / BLOCK_BYTES;
    let unit = unit_of(item, block)?;
    let lo = key.with_offset(item.key.el[3] + block * BLOCK_BYTES);
    Some(DataBlock { unit, lo })
}

// What a block has from a key on; a hole has zeros.
fn of_block<P: Pool>(
    alloc: Global,
    pool: &mut P,
    twig: &Cell,
    found: DataBlock,
    from: Key,
    to: Key,
) -> Result<Stretch, FetchFault>
    requires level { 2 ≤ twig.now.level }
    requires whole { length twig.now.block ≡ 4096 }
    requires stands { StandsInMemory twig.now }
    requires knows { KnowsNames (P.state pool.old) twig.now }
    requires met { IsMet (P.state pool.old) twig.now }
    requires block { IsBlockOf twig.now (rank from) found }
    requires top { rank found.lo + 4096 ≤ top }
    requires order { rank from < rank to }
    ensures goes { Goes (P.state pool.old) (P.state pool.new) }
    ensures device { LeavesDevice (P.device pool.old) (P.device pool.new) }
    ensures block { MeetsBlock (rank from) (P.state pool.old) (P.state pool.new) }
    ensures stretch { IfOk result (IsStretch (IsItOrOf (P.state pool.old) twig.now)
        (P.state pool.new) (rank from) (rank to)) }
    ensures err { IfErr result (λ e. StopsAt (rank from) (P.state pool.old) e (P.state pool.new)) }
{
    let hi = key_after(found.lo, BLOCK_BYTES);
    let end = lesser(to, hi);
    if found.unit.start == 0 {
        let zeros = Block::zeroed(alloc)?;
        return Ok(of_bytes(alloc, &zeros, found.lo, from, end)?);
    }
    let data = pool.fetch(alloc, NodeId(found.unit.start), 0, found.lo, hi)?;
    Ok(of_bytes(alloc, data.block(), found.lo, from, end)?)
}

// The bytes of a block from a key on up to another, as a stretch.
fn of_bytes(alloc: Global, block: &Block, lo: Key, from: Key, to: Key) -> Result<Stretch, Memory>
    requires fits { offset_of lo + 4096 ≤ 2 ^ 64 }
    requires from { rank lo ≤ rank from }
    requires order { rank from < rank to }
    requires below { rank to ≤ rank lo + 4096 }
    ensures to { IfOk result (λ s. s.to ≡ to) }
    ensures pairs { IfOk result (λ s. all_pairs s.parts.items
        ≡ pairs_in (bytes_from (rank lo) block.now) (rank from) (rank to)) }
    ensures full { IfOk result (λ s. AreFull s.parts.items) }
{
    let first = offset_in(lo, from);
    let behind = offset_in(lo, to);
    let mut parts = Vec::new(alloc);
    parts.push(run_of(alloc, from, &block.bytes()[first..behind])?)?;
    Ok(Stretch { parts, to })
}

// How far a key lies behind the first one of a block, to which it belongs or which it ends.
#[tactic(auto, unfolding(r4_base::specs::Key::rank))]
fn offset_in(lo: Key, key: Key) -> usize
    requires fits { offset_of lo + 4096 ≤ 2 ^ 64 }
    requires from { rank lo ≤ rank key }
    requires below { rank key ≤ rank lo + 4096 }
    ensures { result ≡ rank key - rank lo }
{
    if is_of_one_body(lo, key) {
        (key.el[3] - lo.el[3]) as usize
    } else {
        BLOCK_BYTES as usize
    }
}

/// The key so many bytes behind another one, in the order of keys: of the same body, or the first one behind it.
#[tactic(auto, unfolding(r4_base::specs::Key::rank))]
pub fn key_after(key: Key, bytes: u64) -> Key
    requires fits { offset_of key + bytes ≤ 2 ^ 64 }
    requires below { rank key + bytes ≤ top }
    ensures { rank result ≡ rank key + bytes }
{
    match key.el[3].checked_add(bytes) {
        Some(offset) => key.with_offset(offset),
        None => next_body(key),
    }
}

// The first key whose first three numbers, as one, are greater than those of a key.
#[tactic(auto, unfolding(r4_base::specs::Key::rank))]
fn next_body(key: Key) -> Key
    requires { rank key + 2 ^ 64 ≤ top + offset_of key }
    ensures { rank result + offset_of key ≡ rank key + 2 ^ 64 }
{
    let [locality, ordering, oid, _] = key.el;
    if oid < u64::MAX {
        return Key {
            el: [locality, ordering, oid + 1, 0],
        };
    }
    if ordering < u64::MAX {
        return Key {
            el: [locality, ordering + 1, 0, 0],
        };
    }
    Key {
        el: [locality + 1, 0, 0, 0],
    }
}

// Whether two keys differ in their offsets at most.
fn is_of_one_body(one: Key, other: Key) -> bool
    ensures { result ≡ (slice_index one.el 0 == slice_index other.el 0
        && slice_index one.el 1 == slice_index other.el 1
        && slice_index one.el 2 == slice_index other.el 2) }
{
    one.el[0] == other.el[0] && one.el[1] == other.el[1] && one.el[2] == other.el[2]
}

// The lesser of two keys.
fn lesser(one: Key, other: Key) -> Key
    ensures below { rank result ≤ rank one }
    ensures both { rank result ≤ rank other }
    ensures is { (result ≡ one) ⊎ (result ≡ other) }
{
    if other.is_below(one) { other } else { one }
}
