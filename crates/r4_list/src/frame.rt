//! A directory that is being printed, and the place where it goes on (docs/program.md, "Listing").

ghost use Rattle.std.specs.Prelude.{◌≡◌, ℕ, ◌*◌, ◌^◌, ◌<◌, ◌≤◌, ◌+◌, ◌-◌, slice_index, length, Contains, IfOk, IfSome, IfNone, IsTrue, IsFalse, ◌≢◌, Some};
ghost use Rattle.std.specs.Arc.{arc_value};
ghost use Rattle.r4_base.specs.Image.{Image};
ghost use Rattle.r4_base.specs.Key.{rank};
ghost use Rattle.r4_base.specs.Value.{Content};
ghost use Rattle.r4_base.specs.Volume.{HasContent};
ghost use Rattle.r4_base.specs.Tree.{InSpan, Span};
ghost use Rattle.r4_cell.specs.Seen.{node_of};
ghost use Rattle.r4_search.specs.Path.{root_name};
ghost use Rattle.r4_search.specs.Pool.{IsKnown};
ghost use Rattle.r4_search.specs.Path.{EndsAt};
ghost use Rattle.r4_list.specs.Frame.{GoesFurther, IsNextLeaf, IsOpenAt, NoEntries, StandsAt, dir_number};
ghost use Rattle.r4_search.specs.Pool.{StandsInMemory};
ghost use Rattle.r4_list.specs.Over.{FindsOver, IsOver};
ghost use Rattle.r4_list.specs.Walking.{NoneLeft, OpenDir};
ghost use Rattle.r4_list.specs.Printing.{Fetched};

use crate::lookup::{cell_of, is_in_tree};
use r4_base::{ENTRIES, Key, LEAF, Oid};
use r4_cde::{DirView, EntryRef};
use r4_cell::{Cell, Root};
use r4_search::{FetchFault, Pool};
use r4_units::items_up_to;
use std::alloc::Global;
use std::sync::Arc;

/// A directory whose entries are printed from a place on: an entry of an item of a leaf. `path` is the length of its path.
#[derive(Drop)]
pub struct Frame {
    pub dir: Oid,
    pub path: usize,
    pub leaf: Arc<Cell>,
    pub item: u16,
    pub entry: u16,
    ghost small: { dir.0 < 2 ^ 60 },
    ghost level: { (arc_value leaf).level ≡ 1 },
}

impl Frame {
    /// The same directory behind the entry at the place.
    pub fn past_entry(self) -> Frame
        requires { self.entry + 1 < 2 ^ 16 }
        ensures dir { result.dir ≡ self.dir }
        ensures path { result.path ≡ self.path }
        ensures leaf { result.leaf ≡ self.leaf }
        ensures item { result.item ≡ self.item }
        ensures entry { result.entry ≡ self.entry + 1 }
    {
        Frame {
            dir: self.dir,
            path: self.path,
            leaf: self.leaf,
            item: self.item,
            entry: self.entry + 1,
        }
    }

    /// The same directory at the beginning of the next item.
    pub fn past_item(self) -> Frame
        requires { self.item + 1 < 2 ^ 16 }
        ensures dir { result.dir ≡ self.dir }
        ensures path { result.path ≡ self.path }
        ensures leaf { result.leaf ≡ self.leaf }
        ensures item { result.item ≡ self.item + 1 }
        ensures entry { result.entry ≡ 0 }
    {
        Frame {
            dir: self.dir,
            path: self.path,
            leaf: self.leaf,
            item: self.item + 1,
            entry: 0,
        }
    }
}

/// What stands at the place of a frame.
pub enum Place<'a> {
    /// An entry of the directory.
    Entry(EntryRef<'a>),
    /// No entry: the place is behind the entries of an item, or the item is no directory's.
    ItemEnd,
    /// Nothing: the place is behind the items of the leaf.
    LeafEnd,
    /// An item of another directory, or of no directory.
    DirEnd,
}

// The first number of the keys of a directory's entries.
fn first_number(dir: Oid) -> u64
    requires { dir.0 < 2 ^ 60 }
    ensures { result ≡ dir.0 * 16 }
{
    dir.0 * 16
}

// Whether the first number of a key is this one.
fn begins_with(key: Key, number: u64) -> bool
    ensures yes { IsTrue result → slice_index key.el 0 ≡ number }
    ensures no { IsFalse result → slice_index key.el 0 ≢ number }
    ensures below { rank key < (slice_index key.el 0 + 1) * 2 ^ 192 }
{
    key.el[0] == number
}

/// What stands at a place of a leaf, for a directory.
pub fn place_in(leaf: &Cell, dir: Oid, item: u16, entry: u16) -> Place<'_>
    requires level { leaf.now.level ≡ 1 }
    requires small { dir.0 < 2 ^ 60 }
    ensures further { GoesFurther item entry result }
    ensures place { StandsAt leaf.now dir.0 item entry result }
    ensures whole { length leaf.now.block ≡ 4096 }
    ensures stands { StandsInMemory leaf.now }
{
    let node = leaf.node();
    if item >= node.len() {
        return Place::LeafEnd;
    }
    let item = node.item(item);
    if item.key.el[0] != first_number(dir) {
        return Place::DirEnd;
    }
    if item.plugin != ENTRIES {
        return Place::ItemEnd;
    }
    let entries = DirView::of_item(&item.key, item.body);
    if entry >= entries.len() {
        return Place::ItemEnd;
    }
    Place::Entry(entries.entry(entry))
}

/// The leaf with the first entries of a directory, and the place in it; none where there are none.
pub fn first_frame<P: Pool>(
    alloc: Global,
    pool: &mut P,
    root: &Root,
    dir: Oid,
    path: usize,
) -> Result<Option<Frame>, FetchFault>
    requires some { 1 ≤ root.now.height }
    requires known { IsKnown (P.state pool.old) (root_name root.now) }
    requires root { (P.state pool.old).root ≡ root_name root.now }
    requires small { dir.0 < 2 ^ 60 }
    ensures fetched { Fetched root.now (P.state pool.old) result (P.state pool.new) (P.device pool.old) (P.device pool.new) }
    ensures over { (n : ℕ) (image : Image) (m : Content) (c : HasContent n image m) → IsOver c root.now (P.state pool.old) → (f : OpenDir) → f.dir.oid.0 ≡ dir.0 → f.from ≡ 0
        → FindsOver c root.now result (P.state pool.new) (λ o. IfNone o (NoneLeft m f) × IfSome o (λ frame. IsOpenAt c f frame.dir.0 (arc_value frame.leaf) frame.item frame.entry)) }
    ensures path { IfOk result (λ o. IfSome o (λ frame. frame.path ≡ path)) }
{
    let start = Key {
        el: [first_number(dir), 0, 0, 0],
    };
    let Some(leaf) = leaf_from(alloc, pool, root, start)? else {
        return Ok(None);
    };
    let item = items_up_to(&leaf.node(), start);
    Ok(Some(Frame {
        dir,
        path,
        leaf,
        item,
        entry: 0,
    }))
}

/// The frame at the beginning of the next leaf; none where that has none of the directory's entries.
pub fn next_frame<P: Pool>(
    alloc: Global,
    pool: &mut P,
    root: &Root,
    frame: &Frame,
) -> Result<Option<Frame>, FetchFault>
    requires some { 1 ≤ root.now.height }
    requires known { IsKnown (P.state pool.old) (root_name root.now) }
    requires root { (P.state pool.old).root ≡ root_name root.now }
    ensures fetched { Fetched root.now (P.state pool.old) result (P.state pool.new) (P.device pool.old) (P.device pool.new) }
    ensures more { IfOk result (λ o. IfSome o (λ next. rank (arc_value frame.now.leaf).hi < rank (arc_value next.leaf).hi)) }
    ensures within { IfOk result (λ o. IfSome o (λ _. rank (arc_value frame.now.leaf).hi < 2 ^ 256)) }
    ensures over { (n : ℕ) (image : Image) (m : Content) (c : HasContent n image m) → IsOver c root.now (P.state pool.old)
        → (f : OpenDir) → f.dir.oid.0 ≡ frame.now.dir.0 → f.from ≡ rank (arc_value frame.now.leaf).hi → dir_number frame.now.dir.0 * 2 ^ 192 ≤ rank (arc_value frame.now.leaf).hi
        → c.store (arc_value frame.now.leaf).id ≡ Some (node_of (arc_value frame.now.leaf))
        → FindsOver c root.now result (P.state pool.new) (λ o. IfNone o (NoneLeft m f) × IfSome o (λ next. IsOpenAt c f next.dir.0 (arc_value next.leaf) next.item next.entry)) }
    ensures path { IfOk result (λ o. IfSome o (λ next. next.path ≡ frame.now.path)) }
{
    let start = frame.leaf.hi();
    if !begins_with(start, first_number(frame.dir)) {
        return Ok(None);
    }
    let Some(leaf) = leaf_from(alloc, pool, root, start)? else {
        return Ok(None);
    };
    Ok(Some(Frame {
        dir: frame.dir,
        path: frame.path,
        leaf,
        item: 0,
        entry: 0,
    }))
}

// The leaf that has a key, or else the next one behind the extent that has it, while the keys begin with the same number.
fn leaf_from<P: Pool>(
    alloc: Global,
    pool: &mut P,
    root: &Root,
    key: Key,
) -> Result<Option<Arc<Cell>>, FetchFault>
    requires some { 1 ≤ root.now.height }
    requires known { IsKnown (P.state pool.old) (root_name root.now) }
    requires root { (P.state pool.old).root ≡ root_name root.now }
    ensures fetched { Fetched root.now (P.state pool.old) result (P.state pool.new) (P.device pool.old) (P.device pool.new) }
    ensures level { IfOk result (λ o. IfSome o (λ leaf. (arc_value leaf).level ≡ 1)) }
    ensures more { IfOk result (λ o. IfSome o (λ leaf. rank key < rank (arc_value leaf).hi)) }
    ensures within { IfOk result (λ o. IfSome o (λ _. rank key < 2 ^ 256)) }
    ensures over { (n : ℕ) (image : Image) (m : Content) (c : HasContent n image m) → IsOver c root.now (P.state pool.old) → (dir : ℕ) → slice_index key.el 0 ≡ dir_number dir
        → FindsOver c root.now result (P.state pool.new) (λ o. IfNone o (NoEntries m (rank key) ((dir_number dir + 1) * 2 ^ 192)) × IfSome o (λ leaf. IsNextLeaf c (rank key) (arc_value leaf))) }
{
    let mut at = key;
    while at.el[0] == key.el[0] {
        if !is_in_tree(at) {
            return Ok(None);
        }
        let cell = cell_of(alloc, pool, root, at)?;
        if cell.level() == LEAF {
            return Ok(Some(cell));
        }
        at = behind(&cell, at);
    }
    Ok(None)
}

// The key of the item behind the one that has a key, or the end of the node's keys.
fn behind(cell: &Cell, key: Key) -> Key
    requires level { 1 ≤ cell.now.level }
    requires inside { rank key < rank cell.now.hi }
    ensures more { rank key < rank result }
    ensures within { (s : Span) → Contains (node_of cell.now).spans s → InSpan s (rank key) → rank result ≤ s.hi }
{
    let node = cell.node();
    let count = items_up_to(&node, key);
    if count < node.len() {
        return node.item(count).key;
    }
    cell.hi()
}
