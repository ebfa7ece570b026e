//! The bytes of a file (docs/program.md, "Listing").

ghost use Rattle.std.specs.Prelude.{◌≡◌, ◌^◌, ◌≤◌, ◌<◌, ◌+◌, ◌*◌, ◌-◌, ◌/◌, ◌%◌, ◌==◌, ◌&&◌, ◌∷◌, ◌++◌, [], true, false, codes, IsTrue, if◌then◌else◌, OnOk, IfOk, IfErr, IfSome, IfNone, length, min, slice_index, slice_get, slice_range, Some, None, ℕ};
ghost use Rattle.r4_base.specs.Cell.{block_names, hole_bytes};
ghost use Rattle.r4_base.specs.Image.{Image};
ghost use Rattle.r4_base.specs.Key.{rank, least, body_key};
ghost use Rattle.r4_base.specs.Extents.{blocks_in, body_fault, units_of};
ghost use Rattle.r4_base.specs.Node.{Item, items_of};
ghost use Rattle.r4_base.specs.Value.{Content};
ghost use Rattle.r4_base.specs.Volume.{HasContent, HasStat, is_directory};
ghost use Rattle.r4_base.specs.declared.items.Attr.{Attr};
ghost use Rattle.r4_list.specs.Listing.{bytes_from};
ghost use Rattle.r4_search.specs.Path.{EndsAt};
ghost use Rattle.r4_cell.specs.Seen.{node_of};
ghost use Rattle.r4_outside.specs.Sink.{Appends};
ghost use Rattle.r4_search.specs.Path.{root_name};
ghost use Rattle.r4_search.specs.Pool.{IsKnown};
ghost use Rattle.r4_units.specs.Leaf.{AreUpTo};
ghost use Rattle.r4_list.specs.Over.{IsOver};
ghost use Rattle.r4_list.specs.Printed.{PrintsOver};
ghost use Rattle.r4_list.specs.Printing.{Printed};
ghost use Rattle.r4_list.specs.declared.fault.Stop.TheVariants.{Sink as NoSink};
ghost use Rattle.r4_list.specs.Body.{AreKnown, AreStored, AreUnits, HasByte, IsFileTo, IsKeyOf, PrintsNamed, PrintsPart};
ghost use Rattle.r4_units.specs.Extent.{IsUnitAt, unit_block, unit_names};

use crate::fault::Stop;
use crate::lookup::cell_of;
use r4_base::{BLOCK_BYTES, Block, EXTENT, GREATEST_SIZE, Key, NodeId, TAIL, Target, Unit};
use r4_cell::{Cell, Root};
use r4_meta::tail_part;
use r4_node40::ItemView;
use r4_outside::Sink;
use r4_search::Pool;
use r4_units::{items_up_to, unit_of};
use std::alloc::Global;

/// Prints the bytes of a file, and then a newline.
pub fn print_body<P: Pool, K: Sink>(
    alloc: Global,
    pool: &mut P,
    root: &Root,
    out: &mut K,
    file: &Target,
    size: u64,
) -> Result<(), Stop>
    requires some { 1 ≤ root.now.height }
    requires known { IsKnown (P.state pool.old) (root_name root.now) }
    requires root { (P.state pool.old).root ≡ root_name root.now }
    requires file { file.now.locality < 2 ^ 60 }
    requires from { least ≤ rank (body_key file.now.locality file.now.ordering file.now.oid 0) }
    ensures printed { Printed root.now (P.state pool.old) (K.state out.old) result (P.state pool.new) (K.state out.new) (P.device pool.old) (P.device pool.new) }
    ensures over { (n : ℕ) (image : Image) (m : Content) (c : HasContent n image m) (a : Attr) → IsOver c root.now (P.state pool.old) → HasStat m file.now a → is_directory a ≡ false → a.size ≡ size
        → PrintsOver c root.now (bytes_from m file.now (min size (2 ^ 30)) 0 ++ codes "\n") (K.state out.old) result (P.state pool.new) (K.state out.new) }
{
    let end = size.min(GREATEST_SIZE);
    let mut offset = 0;
    while offset < end {
        let key = Key::body(file.locality, file.ordering, file.oid, offset);
        offset += print_part(alloc, pool, root, out, key, end)?;
    }
    out.write(b"\n")?;
    Ok(())
}

// Prints the bytes from a body key on that one tail or one block has, up to an offset, and says how many offsets it is past.
fn print_part<P: Pool, K: Sink>(
    alloc: Global,
    pool: &mut P,
    root: &Root,
    out: &mut K,
    key: Key,
    end: u64,
) -> Result<u64, Stop>
    requires some { 1 ≤ root.now.height }
    requires known { IsKnown (P.state pool.old) (root_name root.now) }
    requires root { (P.state pool.old).root ≡ root_name root.now }
    requires from { least ≤ rank key }
    requires first { slice_index key.el 0 + 1 < 2 ^ 64 }
    requires below { slice_index key.el 3 < end }
    requires small { end ≤ 2 ^ 30 }
    ensures printed { Printed root.now (P.state pool.old) (K.state out.old) result (P.state pool.new) (K.state out.new) (P.device pool.old) (P.device pool.new) }
    ensures next { IfOk result (λ len. (1 ≤ len) × (slice_index key.el 3 + len ≤ end)) }
    ensures over { (n : ℕ) (image : Image) (m : Content) (c : HasContent n image m) (o : Target) → IsOver c root.now (P.state pool.old) → IsKeyOf o key → IsFileTo m o end
        → PrintsPart c root.now o (slice_index key.el 3) (end - slice_index key.el 3) (K.state out.old) result (P.state pool.new) (K.state out.new) }
{
    let cell = cell_of(alloc, pool, root, key)?;
    print_in_cell(alloc, pool, root, out, &cell, key, end)
}

// The same where the cell is at hand whose range has the key.
fn print_in_cell<P: Pool, K: Sink>(
    alloc: Global,
    pool: &mut P,
    root: &Root,
    out: &mut K,
    cell: &Cell,
    key: Key,
    end: u64,
) -> Result<u64, Stop>
    requires level { 1 ≤ cell.now.level }
    requires known { AreKnown (P.state pool.old) (node_of cell.now).names }
    requires root { (P.state pool.old).root ≡ root_name root.now }
    requires inside { rank key < rank cell.now.hi }
    requires below { slice_index key.el 3 < end }
    requires small { end ≤ 2 ^ 30 }
    ensures printed { PrintsNamed root.now (node_of cell.now).names (P.state pool.old) (P.device pool.old) (K.state out.old) result (P.state pool.new) (P.device pool.new) (K.state out.new) }
    ensures next { IfOk result (λ len. (1 ≤ len) × (slice_index key.el 3 + len ≤ end)) }
    ensures over { (n : ℕ) (image : Image) (m : Content) (c : HasContent n image m) (o : Target) → IsOver c root.now (P.state pool.old) → c.store cell.now.id ≡ Some (node_of cell.now)
        → rank cell.now.lo ≤ rank key → EndsAt cell.now (rank key) → IsKeyOf o key → IsFileTo m o end
        → PrintsPart c root.now o (slice_index key.el 3) (end - slice_index key.el 3) (K.state out.old) result (P.state pool.new) (K.state out.new) }
{
    let count = items_up_to(&cell.node(), key);
    if count == 0 {
        return Ok(next_offset(cell, 0, key, end) - key.el[3]);
    }
    let printed = print_item(alloc, pool, root, out, cell, count - 1, key, end)?;
    if printed == 0 {
        return Ok(next_offset(cell, count, key, end) - key.el[3]);
    }
    Ok(printed)
}

// Prints what an item has from a key on, and says how many bytes that were: none where it is no part of the body.
fn print_item<P: Pool, K: Sink>(
    alloc: Global,
    pool: &mut P,
    root: &Root,
    out: &mut K,
    cell: &Cell,
    place: u16,
    key: Key,
    end: u64,
) -> Result<u64, Stop>
    requires level { 1 ≤ cell.now.level }
    requires known { AreKnown (P.state pool.old) (node_of cell.now).names }
    requires root { (P.state pool.old).root ≡ root_name root.now }
    requires place { place < length (items_of cell.now.block) }
    requires from { (it : Item) → slice_get (items_of cell.now.block) place ≡ Some it → rank it.key ≤ rank key }
    requires below { slice_index key.el 3 < end }
    requires small { end ≤ 2 ^ 30 }
    ensures printed { PrintsNamed root.now (node_of cell.now).names (P.state pool.old) (P.device pool.old) (K.state out.old) result (P.state pool.new) (P.device pool.new) (K.state out.new) }
    ensures next { IfOk result (λ len. slice_index key.el 3 + len ≤ end) }
    ensures some { (it : Item) → slice_get (items_of cell.now.block) place ≡ Some it → HasByte it key → IfOk result (λ len. 1 ≤ len) }
    ensures over { (n : ℕ) (image : Image) (m : Content) (c : HasContent n image m) (o : Target) → IsOver c root.now (P.state pool.old) → c.store cell.now.id ≡ Some (node_of cell.now) → IsKeyOf o key → IsFileTo m o end
        → PrintsPart c root.now o (slice_index key.el 3) (end - slice_index key.el 3) (K.state out.old) result (P.state pool.new) (K.state out.new) }
{
    let node = cell.node();
    let item = node.item(place);
    if !is_of_one_body(item.key, key) {
        return Ok(0);
    }
    match item.plugin {
        TAIL => print_tail(out, &item, key, end),
        EXTENT => print_extent(alloc, pool, root, out, &item, key, end),
        _ => Ok(0),
    }
}

// Whether two keys differ in their offsets at most.
fn is_of_one_body(one: Key, other: Key) -> bool
    ensures { result ≡ (slice_index one.el 0 == slice_index other.el 0 && slice_index one.el 1 == slice_index other.el 1 && slice_index one.el 2 == slice_index other.el 2) }
{
    one.el[0] == other.el[0] && one.el[1] == other.el[1] && one.el[2] == other.el[2]
}

// Prints the bytes of a tail from a key on, up to an offset.
fn print_tail<K: Sink>(out: &mut K, item: &ItemView<'_>, key: Key, end: u64) -> Result<u64, Stop>
    requires from { slice_index item.now.key.el 3 ≤ slice_index key.el 3 }
    requires below { slice_index key.el 3 < end }
    ensures appends { Appends (slice_range item.now.body.now (slice_index key.el 3 - slice_index item.now.key.el 3) (min (length item.now.body.now) (end - slice_index item.now.key.el 3))) (K.state out.old) result (K.state out.new) }
    ensures cause { IfErr result (λ e. e ≡ NoSink) }
    ensures len { IfOk result (λ len. len ≡ min (length item.now.body.now) (end - slice_index item.now.key.el 3) - (slice_index key.el 3 - slice_index item.now.key.el 3)) }
{
    let from = key.el[3] - item.key.el[3];
    let to = (item.body.len() as u64).min(end - item.key.el[3]);
    if from >= to {
        return Ok(0);
    }
    out.write(tail_part(item.body, from as usize, to as usize))?;
    Ok(to - from)
}

// Prints the bytes that the block of an extent has from a key on, up to an offset.
fn print_extent<P: Pool, K: Sink>(
    alloc: Global,
    pool: &mut P,
    root: &Root,
    out: &mut K,
    item: &ItemView<'_>,
    key: Key,
    end: u64,
) -> Result<u64, Stop>
    requires few { length item.now.body.now < 16 * 65536 }
    requires good { body_fault true (2 ^ 64) item.now.body.now ≡ None }
    requires known { AreKnown (P.state pool.old) (block_names (rank item.now.key) (units_of item.now.body.now)) }
    requires root { (P.state pool.old).root ≡ root_name root.now }
    requires object { IsTrue (slice_index item.now.key.el 0 == slice_index key.el 0 && slice_index item.now.key.el 1 == slice_index key.el 1 && slice_index item.now.key.el 2 == slice_index key.el 2) }
    requires from { slice_index item.now.key.el 3 ≤ slice_index key.el 3 }
    requires below { slice_index key.el 3 < end }
    requires small { end ≤ 2 ^ 30 }
    ensures printed { PrintsNamed root.now (block_names (rank item.now.key) (units_of item.now.body.now)) (P.state pool.old) (P.device pool.old) (K.state out.old) result (P.state pool.new) (P.device pool.new) (K.state out.new) }
    ensures next { IfOk result (λ len. slice_index key.el 3 + len ≤ end) }
    ensures some { (slice_index key.el 3 - slice_index item.now.key.el 3) / 4096 < blocks_in (units_of item.now.body.now) → IfOk result (λ len. 1 ≤ len) }
    ensures over { (n : ℕ) (image : Image) (m : Content) (c : HasContent n image m) (o : Target) → IsOver c root.now (P.state pool.old) → AreStored c.store (block_names (rank item.now.key) (units_of item.now.body.now))
        → AreUnits c.store (hole_bytes (rank item.now.key) (units_of item.now.body.now)) → IsKeyOf o key → IsFileTo m o end
        → PrintsPart c root.now o (slice_index key.el 3) (end - slice_index key.el 3) (K.state out.old) result (P.state pool.new) (K.state out.new) }
{
    let from = key.el[3] - item.key.el[3];
    let Some(unit) = unit_of(item, from / BLOCK_BYTES) else {
        return Ok(0);
    };
    let place = from % BLOCK_BYTES;
    let lo = key.with_offset(key.el[3] - place);
    let to = BLOCK_BYTES.min(end - lo.el[3]);
    print_bytes(alloc, pool, root, out, unit, lo, place, to)?;
    Ok(to - place)
}

// Prints a part of a block, whose first byte has this key: zeros for a hole.
fn print_bytes<P: Pool, K: Sink>(
    alloc: Global,
    pool: &mut P,
    root: &Root,
    out: &mut K,
    unit: Unit,
    lo: Key,
    from: u64,
    to: u64,
) -> Result<(), Stop>
    requires known { AreKnown (P.state pool.old) (unit_names unit (rank lo)) }
    requires root { (P.state pool.old).root ≡ root_name root.now }
    requires order { from ≤ to }
    requires within { to ≤ 4096 }
    requires small { slice_index lo.el 3 < 2 ^ 30 }
    ensures printed { PrintsNamed root.now (unit_names unit (rank lo)) (P.state pool.old) (P.device pool.old) (K.state out.old) result (P.state pool.new) (P.device pool.new) (K.state out.new) }
    ensures over { (n : ℕ) (image : Image) (m : Content) (c : HasContent n image m) → IsOver c root.now (P.state pool.old) → AreStored c.store (unit_names unit (rank lo))
        → PrintsOver c root.now (slice_range (unit_block image unit) from to) (K.state out.old) result (P.state pool.new) (K.state out.new) }
    ensures whole { (n : ℕ) (image : Image) (m : Content) (c : HasContent n image m) → IsOver c root.now (P.state pool.old) → AreStored c.store (unit_names unit (rank lo))
        → OnOk result (length (unit_block image unit) ≡ 4096) }
{
    if unit.start == 0 {
        let zeros = Block::zeroed(alloc)?;
        out.write(&zeros.bytes()[from as usize..to as usize])?;
        return Ok(());
    }
    let hi = lo.behind(BLOCK_BYTES);
    let block = pool.fetch(alloc, NodeId(unit.start), 0, lo, hi)?;
    out.write(&block.block().bytes()[from as usize..to as usize])?;
    Ok(())
}

// The offset of the next item of the same body behind a place among the items, up to an end.
fn next_offset(cell: &Cell, place: u16, key: Key, end: u64) -> u64
    requires level { 1 ≤ cell.now.level }
    requires place { AreUpTo (items_of cell.now.block) (rank key) place }
    requires inside { rank key < rank cell.now.hi }
    requires below { slice_index key.el 3 < end }
    ensures more { slice_index key.el 3 < result }
    ensures most { result ≤ end }
{
    let next = next_key(cell, place);
    if is_of_one_body(next, key) {
        next.el[3].min(end)
    } else {
        end
    }
}

// The key of the item at a place, or the end of the cell's keys.
fn next_key(cell: &Cell, place: u16) -> Key
    requires level { 1 ≤ cell.now.level }
    requires place { place ≤ length (items_of cell.now.block) }
    ensures item { (it : Item) → slice_get (items_of cell.now.block) place ≡ Some it → result ≡ it.key }
    ensures end { place ≡ length (items_of cell.now.block) → result ≡ cell.now.hi }
{
    let node = cell.node();
    if place < node.len() {
        return node.item(place).key;
    }
    cell.hi()
}
