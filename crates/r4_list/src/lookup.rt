//! Objects and entries, looked up from the root (docs/volume.md, "Paths").

ghost use Rattle.std.specs.Prelude.{◌≡◌, ℕ, ◌^◌, ◌≤◌, ◌<◌, ◌-◌, slice_index, IfOk, IfErr, IfSome, IsTrue, IsFalse, Some, None};
ghost use Rattle.std.specs.Arc.{arc_value};
ghost use Rattle.r4_base.specs.Image.{Image};
ghost use Rattle.r4_base.specs.Key.{rank, least, top};
ghost use Rattle.r4_base.specs.Value.{Content};
ghost use Rattle.r4_base.specs.Volume.{HasContent};
ghost use Rattle.r4_base.specs.Name.{name_fault};
ghost use Rattle.r4_content.specs.Walk.{attr_at, target_at};
ghost use Rattle.r4_cell.specs.Seen.{CellSeen, node_of};
ghost use Rattle.r4_search.specs.Path.{root_name};
ghost use Rattle.r4_search.specs.Pool.{IsKnown, IsOf, KnowsNames};
ghost use Rattle.r4_search.specs.Path.{EndsAt};
ghost use Rattle.r4_list.specs.Over.{FindsOver, IsOver};
ghost use Rattle.r4_list.specs.OverWalks.{IsLookedUp};
ghost use Rattle.r4_list.specs.Printing.{Fetched};

use r4_base::{Attr, Key, LEAF, OBJECT_END, Oid, Target};
use r4_cde::entry_key;
use r4_cell::{Cell, Root};
use r4_search::{FetchFault, Pool, cover, least};
use r4_units::{attr_in, target_in};
use std::alloc::Global;
use std::sync::Arc;

/// Whether a key is from the least one on, and its first number is not the greatest one: then it is below the end of all keys
/// (docs/layout.md, "Keys").
pub fn is_in_tree(key: Key) -> bool
    ensures from { IsTrue result → least ≤ rank key }
    ensures below { IsTrue result → rank key < top }
    ensures outside { IsFalse result → slice_index key.el 0 < 2 ^ 64 - 1 → rank key < least }
{
    !key.is_below(least()) && key.el[0] < u64::MAX
}

/// The node whose range has a key, which is from the least one on and below the end of all keys: a leaf, or the twig where
/// the key lies in the range of an extent (docs/volume.md, "The tree"). Over the tree of a content it is the one of that
/// tree, and no block is refused.
pub fn cell_of<P: Pool>(
    alloc: Global,
    pool: &mut P,
    root: &Root,
    key: Key,
) -> Result<Arc<Cell>, FetchFault>
    requires some { 1 ≤ root.now.height }
    requires known { IsKnown (P.state pool.old) (root_name root.now) }
    requires root { (P.state pool.old).root ≡ root_name root.now }
    requires from { least ≤ rank key }
    requires below { rank key < top }
    ensures fetched { Fetched root.now (P.state pool.old) result (P.state pool.new) (P.device pool.old) (P.device pool.new) }
    ensures from { IfOk result (λ cell. rank (arc_value cell).lo ≤ rank key) }
    ensures inside { IfOk result (λ cell. rank key < rank (arc_value cell).hi) }
    ensures ends { IfOk result (λ cell. EndsAt (arc_value cell) (rank key)) }
    ensures is_of { IfOk result (λ cell. IsOf (P.state pool.old) (arc_value cell)) }
    ensures knows { IfOk result (λ cell. KnowsNames (P.state pool.new) (arc_value cell)) }
    ensures over { (n : ℕ) (image : Image) (m : Content) (c : HasContent n image m) → IsOver c root.now (P.state pool.old)
        → FindsOver c root.now result (P.state pool.new) (λ cell. c.store (arc_value cell).id ≡ Some (node_of (arc_value cell))) }
{
    let mut path = cover(alloc, pool, root, &key)?;
    match path.pop() {
        Some(cell) => Ok(cell),
        None => unreachable!(),
    }
}

/// The attributes of an object, where it has any: over the tree of a content those that it says, and no block is refused
/// (docs/volume.md, "Paths").
pub fn attr_of<P: Pool>(
    alloc: Global,
    pool: &mut P,
    root: &Root,
    object: &Target,
) -> Result<Option<Attr>, FetchFault>
    requires some { 1 ≤ root.now.height }
    requires known { IsKnown (P.state pool.old) (root_name root.now) }
    requires root { (P.state pool.old).root ≡ root_name root.now }
    ensures fetched { Fetched root.now (P.state pool.old) result (P.state pool.new) (P.device pool.old) (P.device pool.new) }
    ensures over { (n : ℕ) (image : Image) (m : Content) (c : HasContent n image m) → IsOver c root.now (P.state pool.old)
        → FindsOver c root.now result (P.state pool.new) (λ a. a ≡ attr_at m object.now) }
    ensures reached { IfOk result (λ a. IfSome a (λ x. IsLookedUp object.now)) }
{
    if object.locality >= OBJECT_END {
        return Ok(None);
    }
    if object.oid.0 >= OBJECT_END {
        return Ok(None);
    }
    let key = Key::stat(object.locality, object.ordering, object.oid);
    if !is_in_tree(key) {
        return Ok(None);
    }
    let cell = cell_of(alloc, pool, root, key)?;
    if cell.level() != LEAF {
        return Ok(None);
    }
    Ok(attr_in(&cell, key))
}

/// What the entry of this name names in a directory, where there is one: over the tree of a content what it says, and no block
/// is refused (docs/volume.md, "Paths").
pub fn target_of<P: Pool>(
    alloc: Global,
    pool: &mut P,
    root: &Root,
    dir: Oid,
    name: &[u8],
) -> Result<Option<Target>, FetchFault>
    requires some { 1 ≤ root.now.height }
    requires known { IsKnown (P.state pool.old) (root_name root.now) }
    requires root { (P.state pool.old).root ≡ root_name root.now }
    ensures fetched { Fetched root.now (P.state pool.old) result (P.state pool.new) (P.device pool.old) (P.device pool.new) }
    ensures over { (n : ℕ) (image : Image) (m : Content) (c : HasContent n image m) → name_fault name.now ≡ None → IsOver c root.now (P.state pool.old)
        → FindsOver c root.now result (P.state pool.new) (λ t. t ≡ target_at m dir.0 name.now) }
{
    if dir.0 >= OBJECT_END {
        return Ok(None);
    }
    let Ok(key) = entry_key(dir, name) else {
        return Ok(None);
    };
    if !is_in_tree(key) {
        return Ok(None);
    }
    let cell = cell_of(alloc, pool, root, key)?;
    if cell.level() != LEAF {
        return Ok(None);
    }
    Ok(target_in(&cell, key, name))
}
