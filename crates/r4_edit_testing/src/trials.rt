//! Trees of two levels for tests: a root over leaves, of which the first is changed, or over an extent of four blocks.

ghost use Rattle.std.specs.Prelude.{◌≡◌, ℕ, true, false, None, [], ◌∷◌, ◌-◌, ◌+◌, ◌^◌, ◌<◌, ◌≤◌, ◌⊎◌, length, map, Contains, IsTrue, IfOk};
ghost use Rattle.std.specs.Arc.{arc_value};
ghost use Rattle.r4_base.specs.Dir.{dir_fault, entries_of};
ghost use Rattle.r4_base.specs.Extents.{units_of};
ghost use Rattle.r4_base.specs.Key.{IsKey, least, offset_of, rank, top};
ghost use Rattle.r4_base.specs.Node.{fits_level, items_of};
ghost use Rattle.r4_base.specs.Tree.{Root as TreeRoot, Store};
ghost use Rattle.r4_base.specs.Value.{Value};
ghost use Rattle.r4_cell.specs.Seen.{node_of};
ghost use Rattle.r4_leaf.specs.Leaves.{MayStand};
ghost use Rattle.r4_patch.specs.Joining.{ids_of};
ghost use Rattle.r4_edit.specs.Editing.{given_item};
ghost use Rattle.r4_path.specs.Growing.{IsRootIn};
ghost use Rattle.r4_path.specs.Steps.{CountUp, Follow};
ghost use Rattle.r4_edit_testing.specs.Trials.{AreLeaves, FirstMayLie, FirstMayTake, IsPathOver, IsRunBlock, IsRunLeaf, IsRunTwig, StandsAlone};
ghost use Rattle.r4_edit_testing.specs.Trials.{byte_key, first_part, first_piece, new_units, run_piece, run_pieces};

use r4_base::{Block, Key, Memory, NodeId, Oid, Unit, put64};
use r4_branch::{TwigPart, TwigPiece, pieces_of};
use r4_cde::DirView;
use r4_cell::{Cell, Change, Fresh, least, read_cell};
use r4_edit::{cut, insert, leaves_without, split};
use r4_node40::NodeMut;
use r4_path::{append, graft, grow, pieces_of_cell, root_over};
use r4_twig::ExtentView;
use std::alloc::Global;
use std::sync::Arc;

/// The number of the first leaf. The others have the next ones.
pub const LEAF: u64 = 1 << 63;

/// The number of the root.
pub const ROOT: u64 = LEAF + 1000;

/// The number behind those that may be taken where an extent is put in. Its blocks have this one and the next.
pub const UNPLACED: u64 = ROOT + 1000;

/// The number of a root that has a leaf and behind it an extent of four blocks. Theirs are the next ones.
pub const TWIG: u64 = 22;

/// The bytes of the four blocks.
const BEHIND: u64 = 16384;

/// The bytes of two blocks.
const TWO_BLOCKS: u64 = 8192;

/// How many blocks there are.
const BLOCKS: u64 = 1 << 60;

/// Puts an item into the first of some leaves, all below one root; `None` where they are none, or it may not be put there: it
/// ends where `end` says or before, and the leaf has no unit from its key up to there.
pub fn put(
    alloc: Global,
    leaves: &[Arc<Cell>],
    key: &Key,
    end: &Key,
    plugin: u16,
    body: &[u8],
) -> Result<Option<Change>, Memory> {
    if !are_leaves(leaves) || !may_come(alloc, leaves, key, end, plugin, body)? {
        return Ok(None);
    }
    let mut fresh = numbers();
    let path = path_over(alloc, leaves, &mut fresh)?;
    let change = insert(alloc, path.as_slice(), key, plugin, body, &mut fresh)?;
    Ok(Some(change))
}

/// Puts an extent of two blocks that have no place yet into the range of the first of some leaves, all below one root; `None`
/// where they are none, or it is another extent, or the leaf has not its keys or has a unit of one of them.
pub fn put_blocks(
    alloc: Global,
    leaves: &[Arc<Cell>],
    key: &Key,
    body: &[u8],
) -> Result<Option<Change>, Memory> {
    if !are_leaves(leaves) || !may_lie(alloc, leaves, key, body)? {
        return Ok(None);
    }
    let mut fresh = numbers();
    let path = path_over(alloc, leaves, &mut fresh)?;
    let _pieces = pieces_of_cell(alloc, &path.as_slice()[0])?;
    let mut few = Fresh {
        next: fresh.next,
        end: UNPLACED,
    };
    let change = insert(alloc, path.as_slice(), key, 5, body, &mut few)?;
    Ok(Some(change))
}

/// Cuts the units from one key up to another out of the first of some leaves, all below one root; `None` where they are none,
/// or the keys are not the leaf's.
pub fn take_out(
    alloc: Global,
    leaves: &[Arc<Cell>],
    from: &Key,
    to: &Key,
) -> Result<Option<Change>, Memory> {
    if !are_leaves(leaves) || !has_keys(&leaves[0], from, to) {
        return Ok(None);
    }
    let mut fresh = numbers();
    let path = path_over(alloc, leaves, &mut fresh)?;
    let change = cut(alloc, path.as_slice(), from, to, &mut fresh)?;
    Ok(Some(change))
}

/// Parts the first of some leaves, all below one root; `None` where they are none, or it has neither two items nor a tail of
/// two bytes nor two entries.
pub fn halve(alloc: Global, leaves: &[Arc<Cell>]) -> Result<Option<Change>, Memory> {
    if !are_leaves(leaves) || !has_two_units(&leaves[0]) {
        return Ok(None);
    }
    let mut fresh = numbers();
    let path = path_over(alloc, leaves, &mut fresh)?;
    let change = split(alloc, path.as_slice(), &mut fresh)?;
    Ok(Some(change))
}

/// Puts a root over that of some leaves; `None` where they are none.
pub fn raise(alloc: Global, leaves: &[Arc<Cell>]) -> Result<Option<Change>, Memory> {
    if !are_leaves(leaves) {
        return Ok(None);
    }
    let mut fresh = numbers();
    let path = path_over(alloc, leaves, &mut fresh)?;
    let change = grow(alloc, &path.as_slice()[0], &mut fresh)?;
    Ok(Some(change))
}

/// Packs the root over some leaves anew, of its own pieces; `None` where they are none.
pub fn repack(alloc: Global, leaves: &[Arc<Cell>]) -> Result<Option<Change>, Memory> {
    if !are_leaves(leaves) {
        return Ok(None);
    }
    let mut fresh = numbers();
    let path = path_over(alloc, leaves, &mut fresh)?;
    let change = anew(alloc, &path.as_slice()[0], &mut fresh)?;
    Ok(Some(change))
}

/// The root of an extent of four blocks, which has a leaf before it, or else another object's extent; `None` where it is
/// refused.
pub fn run_twig(alloc: Global, leaf: bool) -> Result<Option<Arc<Cell>>, Memory> {
    let mut first = [0; 16];
    put64(&mut first, 0, TWIG + 1);
    put64(&mut first, 8, 1);
    let mut block = Block::zeroed(alloc)?;
    if leaf {
        lay_run(&mut block, 3, &first[..8]);
    } else {
        lay_run(&mut block, 5, &first);
    }
    match read_cell(alloc, NodeId(TWIG), 2, least(), r4_cell::top(), 64, block) {
        Ok(cell) => Ok(Some(cell)),
        Err(_) => Ok(None),
    }
}

/// Cuts the first of the four blocks out of an extent, which has a leaf before it, below a root; `None` where the cells are
/// others.
pub fn take_first(
    alloc: Global,
    twig: &Arc<Cell>,
    leaf: &Arc<Cell>,
    block: &Arc<Cell>,
) -> Result<Option<Change>, Memory> {
    if !is_run_leaf(leaf) || !is_run_block(block, 0) || !is_run_twig(alloc, twig, true)? {
        return Ok(None);
    }
    let mut path = Vec::with_capacity(alloc, 3)?;
    path.push(Arc::try_clone(twig)?)?;
    path.push(Arc::try_clone(leaf)?)?;
    path.push(Arc::try_clone(block)?)?;
    let mut fresh = numbers();
    let change = cut(
        alloc,
        path.as_slice(),
        &key_of(0),
        &key_of(4096),
        &mut fresh,
    )?;
    Ok(Some(change))
}

/// Cuts one of the four blocks out of an extent, below a root: the second or the last behind a leaf, or the first behind
/// another object's extent; `None` where the cells are others.
pub fn take_one(
    alloc: Global,
    twig: &Arc<Cell>,
    leaf: bool,
    block: &Arc<Cell>,
    nth: u64,
) -> Result<Option<Change>, Memory> {
    if !is_one(leaf, nth) || !is_run_block(block, nth) || !is_run_twig(alloc, twig, leaf)? {
        return Ok(None);
    }
    let mut path = Vec::with_capacity(alloc, 2)?;
    path.push(Arc::try_clone(twig)?)?;
    path.push(Arc::try_clone(block)?)?;
    let from = key_of(4096 * nth);
    let to = key_of(4096 * nth + 4096);
    let mut fresh = numbers();
    let change = cut(alloc, path.as_slice(), &from, &to, &mut fresh)?;
    Ok(Some(change))
}

/// Puts an extent of two blocks that have no place yet behind the four of an extent, from a byte of their file on, below a
/// root; `None` where it is another extent or byte, or another root.
pub fn put_behind(
    alloc: Global,
    twig: &Arc<Cell>,
    offset: u64,
    body: &[u8],
) -> Result<Option<Change>, Memory> {
    if !is_behind(offset) || !are_new_blocks(body) || !is_run_twig(alloc, twig, true)? {
        return Ok(None);
    }
    let mut path = Vec::with_capacity(alloc, 1)?;
    path.push(Arc::try_clone(twig)?)?;
    let mut few = Fresh {
        next: ROOT,
        end: UNPLACED,
    };
    let change = insert(alloc, path.as_slice(), &key_of(offset), 5, body, &mut few)?;
    Ok(Some(change))
}

/// Puts an item of a leaf behind the four blocks of an extent, below a root; `None` where it may not stand there alone, or
/// it is another root.
pub fn put_apart(
    alloc: Global,
    twig: &Arc<Cell>,
    key: &Key,
    plugin: u16,
    body: &[u8],
) -> Result<Option<Change>, Memory> {
    if !goes_apart(alloc, *key, plugin, body)? || !is_run_twig(alloc, twig, true)? {
        return Ok(None);
    }
    let mut path = Vec::with_capacity(alloc, 1)?;
    path.push(Arc::try_clone(twig)?)?;
    let mut fresh = numbers();
    let change = insert(alloc, path.as_slice(), key, plugin, body, &mut fresh)?;
    Ok(Some(change))
}

// Whether the item may stand in a leaf alone, behind the four blocks.
fn goes_apart(alloc: Global, key: Key, plugin: u16, body: &[u8]) -> Result<bool, Memory>
    ensures { IfOk result (λ b. IsTrue b → IsKey key × (rank (byte_key 16384) ≤ rank key)
        × StandsAlone (given_item key plugin body.now) top) }
{
    if key.is_below(key_of(BEHIND)) || !is_item(plugin, body) {
        return Ok(false);
    }
    stands_alone(alloc, &key, r4_cell::top(), plugin, body)
}

// Whether the byte lies behind the four blocks, and not too far.
fn is_behind(offset: u64) -> bool
    ensures { IsTrue result → (16384 ≤ offset) × (offset < 2 ^ 32) }
{
    offset >= BEHIND && offset < 1 << 32
}

// The key of a byte of the one file.
fn key_of(offset: u64) -> Key
    ensures { result ≡ byte_key offset }
{
    Key::body(41, 0, Oid(42), offset)
}

// Makes the block a twig of an item and an extent of four blocks.
fn lay_run(block: &mut Block, plugin: u16, first: &[u8])
    requires plugin { fits_level 2 plugin ≡ true }
    requires some { 1 ≤ length first.now }
    requires few { length first.now ≤ 16 }
{
    let mut run = [0; 16];
    put64(&mut run, 0, TWIG + 2);
    put64(&mut run, 8, 4);
    let mut node = NodeMut::format(block, 2, 1);
    append(&mut node, 0, Key::stat(41, 0, Oid(42)), plugin, first);
    append(&mut node, 1, key_of(0), 5, &run);
}

// Whether the cell is the root of an extent of four blocks, which has a leaf before it, or else another object's extent.
fn is_run_twig(alloc: Global, twig: &Cell, leaf: bool) -> Result<bool, Memory>
    ensures { IfOk result (λ b. IsTrue b → IsRunTwig leaf twig.now) }
{
    if twig.id().0 != TWIG || twig.level() != 2 {
        return Ok(false);
    }
    if !twig.lo().is_same(least()) || !twig.hi().is_same(r4_cell::top()) {
        return Ok(false);
    }
    let _node = twig.node();
    let pieces = pieces_of_cell(alloc, twig)?;
    Ok(are_run(pieces.as_slice(), leaf))
}

// Whether the pieces are the first one, and a run of four blocks.
fn are_run(pieces: &[TwigPiece], leaf: bool) -> bool
    ensures { IsTrue result → pieces.now ≡ run_pieces leaf }
{
    let [first, second] = pieces else {
        return false;
    };
    is_first(first, leaf) && is_run(second)
}

// Whether the piece is the pointer to the leaf, or else the one block of another object.
fn is_first(piece: &TwigPiece, leaf: bool) -> bool
    ensures { IsTrue result → piece.now ≡ first_piece leaf }
{
    is_first_part(&piece.part, leaf) && piece.key.is_same(Key::stat(41, 0, Oid(42)))
}

// Whether it is the part of that piece.
fn is_first_part(part: &TwigPart, leaf: bool) -> bool
    ensures { IsTrue result → part.now ≡ first_part leaf }
{
    match part {
        TwigPart::Pointer(id) => leaf && id.0 == TWIG + 1,
        TwigPart::Blocks(unit) => !leaf && unit.start == TWIG + 1 && unit.width == 1,
    }
}

// Whether the piece is the run of four blocks.
fn is_run(piece: &TwigPiece) -> bool
    ensures { IsTrue result → piece.now ≡ run_piece }
{
    let TwigPart::Blocks(unit) = piece.part else {
        return false;
    };
    unit.start == TWIG + 2 && unit.width == 4 && piece.key.is_same(key_of(0))
}

// Whether the cell is the leaf before the run.
fn is_run_leaf(leaf: &Cell) -> bool
    ensures { IsTrue result → IsRunLeaf leaf.now }
{
    if leaf.id().0 != TWIG + 1 || leaf.level() != 1 {
        return false;
    }
    let _node = leaf.node();
    leaf.lo().is_same(least()) && leaf.hi().is_same(key_of(0))
}

// Whether it is the place of the second block or of the last one; or of the first, where there is no leaf.
fn is_one(leaf: bool, nth: u64) -> bool
    ensures { IsTrue result → ((leaf ≡ true) × ((nth ≡ 1) ⊎ (nth ≡ 3))) ⊎ ((leaf ≡ false) × (nth ≡ 0)) }
{
    if leaf {
        return nth == 1 || nth == 3;
    }
    nth == 0
}

// Whether the cell is one of the run's blocks.
fn is_run_block(block: &Cell, nth: u64) -> bool
    ensures { IsTrue result → IsRunBlock nth block.now }
{
    if nth >= 4 || block.id().0 != TWIG + 2 + nth || block.level() != 0 {
        return false;
    }
    let _bytes = block.block().bytes();
    block.lo().is_same(key_of(4096 * nth)) && block.hi().is_same(key_of(4096 * nth + 4096))
}

// Packs a root that is a twig anew, of its own pieces.
fn anew(alloc: Global, root: &Arc<Cell>, fresh: &mut Fresh) -> Result<Change, Memory>
    requires root { (t : Store Value) × ((r : TreeRoot) × IsRootIn t r (arc_value root.now) fresh.old) }
    requires level { (arc_value root.now).level ≡ 2 }
    requires numbers { (2 ^ 63 ≤ fresh.old.next) × (fresh.old.next + 1 < fresh.old.end) }
{
    let pieces = pieces_of(alloc, &root.node())?;
    let path = [Arc::try_clone(root)?];
    graft(alloc, &path, pieces.as_slice(), fresh)
}

// The numbers for the root and what comes.
pub fn numbers() -> Fresh
    ensures next { result.next ≡ 2 ^ 63 + 1000 }
    ensures end { result.end ≡ 2 ^ 64 - 1 }
{
    Fresh {
        next: ROOT,
        end: u64::MAX,
    }
}

// Whether all these keys belong to the cell.
fn has_keys(leaf: &Cell, from: &Key, to: &Key) -> bool
    ensures { IsTrue result → (rank from.now < rank to.now) × (rank leaf.now.lo ≤ rank from.now)
        × (rank to.now ≤ rank leaf.now.hi) }
{
    from.is_below(*to) && !from.is_below(leaf.lo()) && !leaf.hi().is_below(*to)
}

// Whether the leaf has two items, or one tail of two bytes, or one item of two entries.
fn has_two_units(leaf: &Cell) -> bool
    requires level { leaf.now.level ≡ 1 }
    requires range { rank leaf.now.lo < rank leaf.now.hi }
    ensures { IsTrue result → 2 ≤ length (node_of leaf.now).units }
{
    let node = leaf.node();
    if node.len() != 1 {
        return node.len() >= 2;
    }
    let item = node.item(0);
    if item.plugin == 2 {
        return has_two_entries(&item.key, item.body);
    }
    item.plugin == 6 && item.body.len() >= 2
}

// Whether an item has two entries.
fn has_two_entries(key: &Key, body: &[u8]) -> bool
    requires { dir_fault key.now body.now ≡ None }
    ensures { IsTrue result → 2 ≤ length (entries_of key.now body.now) }
{
    DirView::of_item(key, body).len() >= 2
}

/// Whether the cells are leaves below one root.
pub fn are_leaves(cells: &[Arc<Cell>]) -> bool
    ensures { IsTrue result → AreLeaves (map (λ c. arc_value c) cells.now) }
{
    if cells.is_empty() || cells.len() > 88 {
        return false;
    }
    follow(cells, LEAF, least())
}

// Whether the cells are leaves from one key up to the end of all keys, with numbers from one on.
fn follow(cells: &[Arc<Cell>], id: u64, lo: Key) -> bool
    requires { id + length cells.now < 2 ^ 64 }
    ensures { IsTrue result → Follow 1 (rank lo) top (map (λ c. arc_value c) cells.now)
        × CountUp id (ids_of (map (λ c. arc_value c) cells.now)) }
{
    if cells.is_empty() {
        return lo.is_same(r4_cell::top());
    }
    if !comes_next(&cells[0], id, lo) {
        return false;
    }
    follow(&cells[1..], id + 1, cells[0].hi())
}

// Whether the cell is a leaf of this number from this key on.
fn comes_next(cell: &Cell, id: u64, lo: Key) -> bool
    ensures { IsTrue result → (cell.now.level ≡ 1) × (cell.now.id ≡ id) × (rank cell.now.lo ≡ rank lo)
        × (rank lo < rank cell.now.hi) }
{
    cell.level() == 1 && cell.id().0 == id && cell.lo().is_same(lo) && lo.is_below(cell.hi())
}

// The root over leaves, and the first of them.
pub(crate) fn path_over(
    alloc: Global,
    leaves: &[Arc<Cell>],
    fresh: &mut Fresh,
) -> Result<Vec<Arc<Cell>>, Memory>
    requires leaves { AreLeaves (map (λ c. arc_value c) leaves.now) }
    requires next { fresh.old.next ≡ 2 ^ 63 + 1000 }
    requires end { fresh.old.end ≡ 2 ^ 64 - 1 }
    ensures path { IfOk result (λ path. IsPathOver (map (λ c. arc_value c) leaves.now) fresh.new (map
        (λ c. arc_value c) path.items)) }
    ensures next { IfOk result (λ path. (fresh.new.next ≡ 2 ^ 63 + 1001) × (fresh.new.end ≡ 2 ^ 64 - 1)) }
{
    let leaf = &leaves[0];
    let _node = leaf.node();
    let twig = root_over(alloc, leaves, 1, fresh)?;
    let mut path = Vec::with_capacity(alloc, 2)?;
    path.push(twig)?;
    path.push(Arc::try_clone(leaf)?)?;
    Ok(path)
}

// Whether the item may be put into the first of the leaves, which has no unit from its key up to its end.
fn may_come(
    alloc: Global,
    leaves: &[Arc<Cell>],
    key: &Key,
    end: &Key,
    plugin: u16,
    body: &[u8],
) -> Result<bool, Memory>
    requires { AreLeaves (map (λ c. arc_value c) leaves.now) }
    ensures { IfOk result (λ b. IsTrue b
        → FirstMayTake (map (λ c. arc_value c) leaves.now) (record { key = key.now; plugin = plugin; body = body.now })) }
{
    let leaf = &leaves[0];
    if key.is_below(least()) || leaf.hi().is_below(*end) || !is_item(plugin, body) {
        return Ok(false);
    }
    if !stands_alone(alloc, key, *end, plugin, body)? {
        return Ok(false);
    }
    is_clear(alloc, leaf, key, end)
}

// Whether the item is the extent of two blocks that have no place yet, and the first of the leaves has its keys, and no unit
// of one of them.
fn may_lie(alloc: Global, leaves: &[Arc<Cell>], key: &Key, body: &[u8]) -> Result<bool, Memory>
    requires { AreLeaves (map (λ c. arc_value c) leaves.now) }
    ensures { IfOk result (λ b. IsTrue b
        → FirstMayLie (map (λ c. arc_value c) leaves.now) (given_item key.now 5 body.now)) }
{
    let leaf = &leaves[0];
    let Some(end) = two_blocks_behind(key) else {
        return Ok(false);
    };
    if key.is_below(least()) || leaf.hi().is_below(end) || !are_new_blocks(body) {
        return Ok(false);
    }
    is_clear(alloc, leaf, key, &end)
}

/// The key two blocks behind another, of the same object.
pub fn two_blocks_behind(key: &Key) -> Option<Key>
    ensures { (k : Key) → result ≡ Some k → IsKey key.now × (offset_of key.now + 8192 < 2 ^ 64)
        × (rank k ≡ rank key.now + 8192) }
{
    if key.el[3] >= u64::MAX - TWO_BLOCKS {
        return None;
    }
    Some(Key {
        el: [key.el[0], key.el[1], key.el[2], key.el[3] + TWO_BLOCKS],
    })
}

/// Whether the extent has two blocks that have no place yet, the first two numbers behind those
/// that may be taken.
pub fn are_new_blocks(body: &[u8]) -> bool
    ensures { IsTrue result → (length body.now ≡ 32) × (units_of body.now ≡ new_units) }
{
    if body.len() > 4030 {
        return false;
    }
    let Ok(extent) = ExtentView::in_memory(body, BLOCKS) else {
        return false;
    };
    if extent.len() != 2 {
        return false;
    }
    let first = Unit {
        start: UNPLACED,
        width: 1,
    };
    let second = Unit {
        start: UNPLACED + 1,
        width: 1,
    };
    extent.unit(0) == first && extent.unit(1) == second
}

// Whether it is stat data, entries or a tail, and fits into a leaf.
pub(crate) fn is_item(plugin: u16, body: &[u8]) -> bool
    ensures { IsTrue result → (1 ≤ length body.now) × (length body.now ≤ 4030)
        × ((plugin ≡ 0) ⊎ ((plugin ≡ 2) ⊎ (plugin ≡ 6))) }
{
    !body.is_empty() && body.len() <= 4030 && (plugin == 0 || plugin == 2 || plugin == 6)
}

// Whether the item may stand in a leaf alone, up to a key.
pub(crate) fn stands_alone(
    alloc: Global,
    key: &Key,
    hi: Key,
    plugin: u16,
    body: &[u8],
) -> Result<bool, Memory>
    requires least { least ≤ rank key.now }
    requires top { rank hi ≤ top }
    requires item { (1 ≤ length body.now) × (length body.now ≤ 4030) × ((plugin ≡ 0) ⊎ ((plugin ≡ 2) ⊎ (plugin ≡ 6))) }
    ensures { IfOk result (λ b. IsTrue b → StandsAlone (record { key = key.now; plugin = plugin; body = body.now }) (rank hi)) }
{
    let mut block = Block::zeroed(alloc)?;
    lay(&mut block, key, plugin, body);
    Ok(stands(alloc, *key, hi, block))
}

// Makes the block a leaf with this item alone.
fn lay(block: &mut Block, key: &Key, plugin: u16, body: &[u8])
    requires item { (1 ≤ length body.now) × (length body.now ≤ 4030) × ((plugin ≡ 0) ⊎ ((plugin ≡ 2) ⊎ (plugin ≡ 6))) }
    ensures { items_of block.new ≡ record { key = key.now; plugin = plugin; body = body.now } ∷ [] }
{
    let mut node = NodeMut::format(block, 1, 1);
    append(&mut node, 0, *key, plugin, body);
}

// Whether the leaf has no unit from one key up to another: without those it is the same.
fn is_clear(alloc: Global, leaf: &Cell, from: &Key, to: &Key) -> Result<bool, Memory>
    requires level { leaf.now.level ≡ 1 }
    ensures { IfOk result (λ b. IsTrue b → (k : ℕ) (v : Value) → Contains (node_of leaf.now).units (k, v)
        → (k < rank from.now) ⊎ (rank to.now ≤ k)) }
{
    let leaves = leaves_without(alloc, leaf, from, to)?;
    let [one] = leaves.as_slice() else {
        return Ok(false);
    };
    Ok(one.block.bytes() == leaf.block().bytes())
}

// Whether the block may stand as a leaf for these keys.
fn stands(alloc: Global, lo: Key, hi: Key, block: Block) -> bool
    ensures { IsTrue result → MayStand (rank lo) (rank hi) block }
{
    match read_cell(alloc, NodeId(LEAF), 1, lo, hi, BLOCKS, block) {
        Ok(cell) => {
            let _node = cell.node();
            true
        }
        Err(_) => false,
    }
}
