//! A fresh volume of 64 blocks, its two cells as those of a task, and commands on them.

ghost use Rattle.std.specs.Prelude.{◌≡◌, ◌<◌, ◌∷◌, [], IfOk, IsTrue, None, false};
ghost use Rattle.std.specs.Arc.{arc_value};
ghost use Rattle.r4_base.specs.Key.{least};
ghost use Rattle.r4_base.specs.Value.{Entry, Stat};
ghost use Rattle.r4_base.specs.Volume.{root_attr, root_object, stat_rank};
ghost use Rattle.r4_content.specs.Objects.{entry_rank, new_file, sized};
ghost use Rattle.r4_build_testing.specs.Commands.{file, file_name, file_seen, file_text};
ghost use Rattle.r4_build_testing.specs.Commands.{fresh_seen};
ghost use Rattle.r4_base.specs.Bytes.{number_bytes};
ghost use Rattle.r4_base.specs.Fresh.{HasOneItem};
ghost use Rattle.r4_base.specs.Image.{block_at};
ghost use Rattle.r4_content.specs.Held.{edits_of, pairs_of, part_pairs};
ghost use Rattle.r4_content.specs.Seen.{Rises};
ghost use Rattle.r4_leaf_edits.specs.Made.{spread_keys};
ghost use Rattle.r4_leaf_edits.specs.Suiting.{SuitLeaves};
ghost use Rattle.r4_outside.specs.Device.{TellsReads};
ghost use Rattle.r4_outside.specs.Memory.{memory_state};
ghost use Rattle.r4_reach.specs.Touched.{body_on, edits_on};
ghost use Rattle.r4_build_testing.specs.Small.{AreLawful, HasAllKeys, HasRoomFor, IsSmall};

use r4_base::{
    Attr, Block, BlockNo, Bytes, Key, Memory, Name, NodeId, Oid, ScriptNo, Target, TaskId, TxnNo,
    Value,
};
use r4_build::{Built, Task, build};
use r4_cell::{Cell, Cells, Change, Fresh, Root, least, read_cell, top};
use r4_content::{Command, Edits, Path, Seen, SeenPart};
use r4_file::plan;
use r4_leaf::bytes_after;
use r4_leaf_edits::edits_of_leaf;
use r4_mkfs::mkfs;
use r4_outside::{Device, Gate, MemoryDevice};
use r4_turns::Scope;
use std::alloc::Global;
use std::sync::Arc;
use std::test::Fail;

/// What the root directory of a fresh volume has.
pub const ROOT: Attr = Attr {
    mode: 0o40755,
    nlink: 2,
    size: 0,
    uid: 0,
    gid: 0,
    atime: 0,
    mtime: 0,
    ctime: 0,
    bytes: 0,
};

// All that is changed there lies in the leaf, and no more cells come than the two and a root.
const SCOPE: Scope = Scope {
    root: Root {
        id: NodeId(22),
        height: 2,
    },
    in_leaves: true,
    in_extents: false,
    most: 3,
};

/// What a new file has.
pub const NEW_FILE: Attr = Attr {
    mode: 0o100644,
    nlink: 1,
    ..ROOT
};

/// The file "a" in the root directory.
pub const FILE: Target = Target {
    locality: 42,
    ordering: 27_303_072_740_933_632,
    oid: Oid(65_536),
};

/// The key of its entry.
pub const ENTRY: Key = Key {
    el: [672, 27_303_072_740_933_632, 0, 0],
};

/// The key of its stat data.
pub const FILE_STAT: Key = Key {
    el: [673, 27_303_072_740_933_632, 65_536, 0],
};

/// The root and the leaf of a fresh volume, read from the device on which it was made.
pub fn fresh_cells(alloc: Global) -> Result<Cells, Fail>
    ensures { IfOk result IsSmall }
{
    let mut dev = fresh_volume(alloc)?;
    if dev.blocks()? != 64 {
        return Err(Fail::from("the volume has another size"));
    }
    let twig = cell_at(alloc, &mut dev, 22, 2)?;
    let leaf = cell_at(alloc, &mut dev, 23, 1)?;
    small(alloc, twig, leaf)
}

// A device on which a volume was made.
fn fresh_volume(alloc: Global) -> Result<MemoryDevice, Fail>
    ensures tells { IfOk result (λ d. TellsReads (memory_state d)) }
    ensures twig { IfOk result (λ d.
        HasOneItem (block_at (memory_state d).seen 22) 2 3 (number_bytes 8 23)) }
{
    let mut dev = MemoryDevice::plain(alloc, 64)?;
    match mkfs(alloc, &mut dev, b"") {
        Ok(_) => Ok(dev),
        Err(_) => Err(Fail::from("no volume was made")),
    }
}

// A block as a node of all keys.
fn cell_at(alloc: Global, dev: &mut MemoryDevice, at: u64, level: u8) -> Result<Arc<Cell>, Fail>
    requires { at < (memory_state dev.old).blocks }
    ensures keys { IfOk result (λ c. HasAllKeys at level (arc_value c)) }
    ensures block { TellsReads (memory_state dev.old)
        → IfOk result (λ c. (arc_value c).block ≡ block_at (memory_state dev.old).seen at) }
    ensures blocks { (memory_state dev.new).blocks ≡ (memory_state dev.old).blocks }
    ensures seen { (memory_state dev.new).seen ≡ (memory_state dev.old).seen }
{
    let mut block = Block::zeroed(alloc)?;
    dev.read(BlockNo(at), &mut block)?;
    match read_cell(alloc, NodeId(at), level, least(), top(), 64, block) {
        Ok(cell) => Ok(cell),
        Err(_) => Err(Fail::from("a cell is refused")),
    }
}

// The root and the leaf.
fn small(alloc: Global, twig: Arc<Cell>, leaf: Arc<Cell>) -> Result<Cells, Fail>
    requires above { HasAllKeys 22 2 (arc_value twig) }
    requires below { HasAllKeys 23 1 (arc_value leaf) }
    requires pointer { HasOneItem (arc_value twig).block 2 3 (number_bytes 8 23) }
    ensures { IfOk result IsSmall }
{
    let _node = leaf.node();
    let mut cells = Vec::new(alloc);
    cells.push(twig)?;
    cells.push(leaf)?;
    Ok(Cells::from_vec(cells))
}

/// The root and the new leaf, where a change has just one new cell and it takes the leaf's place.
pub fn with_change(alloc: Global, cells: &Cells, change: &Change) -> Result<Cells, Fail>
    requires { IsSmall cells.now }
    ensures { IfOk result IsSmall }
{
    let ([twig, _], [leaf]) = (cells.as_slice(), change.new.as_slice()) else {
        return Err(Fail::from("another number of cells comes"));
    };
    if leaf.id().0 != 23 || leaf.level() != 1 {
        return Err(Fail::from("another cell comes"));
    }
    if !leaf.lo().is_same(least()) || !leaf.hi().is_same(top()) {
        return Err(Fail::from("the leaf has other keys"));
    }
    small(alloc, Arc::try_clone(twig)?, Arc::try_clone(leaf)?)
}

/// What is built of a command on what was seen, where the leaf has room for it.
pub fn built<G: Gate>(
    alloc: Global,
    gate: &G,
    writes: Cells,
    command: Command,
    seen: Seen,
) -> Result<Built, Fail>
    requires small { IsSmall writes }
    requires lawful { AreLawful (edits_on command (pairs_of seen)) }
    requires tails { spread_keys (body_on command (pairs_of seen) false) ≡ None }
    requires rises { Rises (pairs_of seen) }
{
    if !has_room(alloc, &writes, &command, &seen)? {
        return Err(Fail::from("the leaf has no room"));
    }
    let task = Task {
        id: TaskId(7),
        script: ScriptNo(3),
        index: 5,
        txn: TxnNo(2),
        command,
        reads: Cells::new(alloc),
        writes,
        seen: Arc::new(alloc, seen)?,
        scope: SCOPE,
        fresh: Fresh {
            next: 9_223_372_036_854_775_808,
            end: 9_223_372_036_854_776_808,
        },
    };
    match build(alloc, gate, task) {
        Ok(built) => Ok(built),
        Err(_) => Err(Fail::from("there is no memory")),
    }
}

// Whether the leaf has room for a command.
fn has_room(alloc: Global, cells: &Cells, command: &Command, seen: &Seen) -> Result<bool, Memory>
    requires small { IsSmall cells.now }
    requires lawful { AreLawful (edits_on command.now (pairs_of seen.now)) }
    requires rises { Rises (pairs_of seen.now) }
    ensures { IfOk result (λ b. IsTrue b → (small : IsSmall cells.now)
        → HasRoomFor (edits_on command.now (pairs_of seen.now)) small.leaf) }
{
    let edits = plan(alloc, command, seen)?;
    match cells.as_slice() {
        [_, leaf] => leaf_has_room(alloc, leaf, &edits),
        _ => Ok(false),
    }
}

// Whether the leaf has room for edits.
fn leaf_has_room(alloc: Global, leaf: &Cell, edits: &Edits) -> Result<bool, Memory>
    requires keys { HasAllKeys 23 1 leaf.now }
    requires suit { SuitLeaves 16384 (edits_of edits.now) }
    ensures { IfOk result (λ b. IsTrue b → HasRoomFor (edits_of edits.now) leaf.now) }
{
    let node = leaf.node();
    let gets = edits_of_leaf(alloc, edits, None, &leaf.lo(), &leaf.hi())?;
    let items = gets.items(alloc)?;
    let bytes = bytes_after(alloc, &node, leaf.lo(), gets.cuts(), items.as_slice())?;
    Ok(bytes <= 4068)
}

/// The file is created on a fresh volume.
pub fn build_creation<G: Gate>(alloc: Global, gate: &G, cells: Cells) -> Result<Built, Fail>
    requires { IsSmall cells }
{
    let seen = fresh_seen(alloc)?;
    let path = file_path(alloc)?;
    let command = Command::Create {
        path,
        oid: Oid(65_536),
    };
    built(alloc, gate, cells, command, seen)
}

/// The times of the root directory are set on a fresh volume.
pub fn build_times<G: Gate>(alloc: Global, gate: &G, cells: Cells) -> Result<Built, Fail>
    requires { IsSmall cells }
{
    let seen = fresh_seen(alloc)?;
    let command = Command::Times {
        path: Path::from_vec(Vec::new(alloc)),
        atime: 11,
        mtime: 12,
        ctime: 13,
    };
    built(alloc, gate, cells, command, seen)
}

/// The mode of the file is set on a fresh volume, where it is not.
pub fn build_refused<G: Gate>(alloc: Global, gate: &G, cells: Cells) -> Result<Built, Fail>
    requires { IsSmall cells }
{
    let seen = fresh_seen(alloc)?;
    let path = file_path(alloc)?;
    let command = Command::Chmod { path, mode: 0o600 };
    built(alloc, gate, cells, command, seen)
}

/// Five bytes are written into the file, once it is there.
pub fn build_writing<G: Gate>(alloc: Global, gate: &G, cells: Cells) -> Result<Built, Fail>
    requires { IsSmall cells }
{
    let seen = file_seen(alloc)?;
    let path = file_path(alloc)?;
    let text = hello(alloc)?;
    let command = Command::Write {
        path,
        offset: 0,
        text,
    };
    built(alloc, gate, cells, command, seen)
}

// The path of the file "a".
fn file_path(alloc: Global) -> Result<Path, Fail>
    ensures { IfOk result (λ p. p ≡ file_name ∷ []) }
{
    let name = file_name(alloc)?;
    let mut names = Vec::new(alloc);
    names.push(name)?;
    Ok(Path::from_vec(names))
}

// The name "a".
fn file_name(alloc: Global) -> Result<Name, Fail>
    ensures { IfOk result (λ n. n ≡ file_name) }
{
    let bytes = Vec::from_array(alloc, *b"a")?;
    let name = Name::from_vec(alloc, bytes)?;
    Ok(name)
}

// The bytes "hello".
fn hello(alloc: Global) -> Result<Bytes, Fail>
    ensures { IfOk result (λ b. b ≡ file_text) }
{
    let items = Vec::from_array(alloc, *b"hello")?;
    let bytes = Bytes::from_vec(alloc, items)?;
    Ok(bytes)
}

// What is seen of a fresh volume.
fn fresh_seen(alloc: Global) -> Result<Seen, Fail>
    ensures { IfOk result (λ s. pairs_of s ≡ fresh_seen) }
{
    let mut parts = Vec::new(alloc);
    parts.push(root_with(0))?;
    Ok(Seen { parts })
}

// What is seen once the file is there.
fn file_seen(alloc: Global) -> Result<Seen, Fail>
    ensures { IfOk result (λ s. pairs_of s ≡ file_seen) }
{
    let entry = entry_seen(alloc)?;
    let mut parts = Vec::new(alloc);
    parts.push(root_with(1))?;
    parts.push(entry)?;
    parts.push(stat_seen())?;
    Ok(Seen { parts })
}

// The file's entry.
#[tactic(auto, unfolding(r4_base::specs::Key::rank, r4_base::specs::Name::key_of_name, r4_base::specs::Name::packed))]
fn entry_seen(alloc: Global) -> Result<SeenPart, Fail>
    ensures { IfOk result (λ p.
        part_pairs p ≡ (entry_rank root_object file_name, Entry file_name file) ∷ []) }
{
    let name = file_name(alloc)?;
    Ok(SeenPart::One {
        key: ENTRY,
        value: Value::Entry(name, FILE),
    })
}

// The file's stat data.
#[tactic(auto, unfolding(r4_base::specs::Key::rank))]
fn stat_seen() -> SeenPart
    ensures { part_pairs result ≡ (stat_rank file, Stat new_file) ∷ [] }
{
    SeenPart::One {
        key: FILE_STAT,
        value: Value::Attr(NEW_FILE),
    }
}

// The root directory with so many entries.
#[tactic(auto, unfolding(r4_base::specs::Key::rank, r4_base::specs::Key::least))]
fn root_with(entries: u64) -> SeenPart
    ensures { part_pairs result ≡ (least, Stat (sized root_attr entries)) ∷ [] }
{
    SeenPart::One {
        key: Key {
            el: [657, 0, 42, 0],
        },
        value: Value::Attr(Attr {
            size: entries,
            bytes: entries,
            ..ROOT
        }),
    }
}
