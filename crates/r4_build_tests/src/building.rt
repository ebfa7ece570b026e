//! What is built on a fresh volume, and on it with a change in place: the reply, the cells and the task.

ghost use Rattle.std.specs.Prelude.{◌≡◌, IfOk};
ghost use Rattle.r4_build_testing.specs.Small.{IsSmall};

use r4_base::{Attr, Key, ScriptNo, TAIL, Target, TaskId, get16};
use r4_build::{Built, ObjectCounts, Task};
use r4_build_testing::{
    ENTRY, FILE, FILE_STAT, NEW_FILE, ROOT, build_creation, build_refused, build_times,
    build_writing, fresh_cells, with_change,
};
use r4_cell::{Cell, Cells, Change, Fresh, least};
use r4_content::Reply;
use r4_outside::Gate;
use r4_units::{attr_in, target_in};
use std::alloc::Global;
use std::process::Abort;
use std::sync::atomic::{AtomicU64, Ordering};
use std::test::Fail;

// The key of the file's first byte.
const FIRST_BYTE: Key = Key {
    el: [676, FILE.ordering, 65_536, 0],
};

// A gate that counts, and adds up the scripts and the indices that pass.
#[derive(Drop)]
struct Counter {
    passed: AtomicU64,
    told: AtomicU64,
}

impl Counter {
    fn new() -> Counter {
        Counter {
            passed: AtomicU64::new(0),
            told: AtomicU64::new(0),
        }
    }

    // How often it was passed, and the sum of what it was told.
    fn count(&self) -> (u64, u64) {
        (
            self.passed.load(Ordering::SeqCst),
            self.told.load(Ordering::SeqCst),
        )
    }
}

impl Gate for Counter {
    fn pass(&self, script: ScriptNo, index: u32) {
        self.passed.fetch_add(1, Ordering::SeqCst);
        let told = u64::from(script.0) * 1000 + u64::from(index);
        self.told.fetch_add(told, Ordering::SeqCst);
    }
}

// How many cells there are, and of the first its number and how many items it has.
type Row = (usize, Option<(u64, u16)>);

fn row(cells: &Cells) -> Row {
    let cells = cells.as_slice();
    let first = match cells.first() {
        Some(cell) => Some((cell.id().0, get16(cell.block().bytes(), 2))),
        None => None,
    };
    (cells.len(), first)
}

// Whether the task is as it was given, its numbers included.
fn is_as_given(task: &Task) -> bool {
    let numbers = Fresh {
        next: 9_223_372_036_854_775_808,
        end: 9_223_372_036_854_776_808,
    };
    task.id == TaskId(7) && task.index == 5 && task.fresh == numbers
}

// The old cells and the new ones, where the root stays and the task is as it was given.
fn outcome(built: &Built) -> Option<(Row, Row)> {
    let change = built.change();
    if change.root.is_some() || !is_as_given(built.task()) {
        return None;
    }
    Some((row(&change.old), row(&change.new)))
}

// The root's attributes in the one leaf, what the file's entry names there, and the file's attributes.
type FileRow = (Option<Attr>, Option<Target>, Option<Attr>);

fn file_in(cells: &Cells) -> Option<FileRow> {
    match cells.as_slice() {
        [leaf] if leaf.level() == 1 => Some((
            attr_in(leaf, least()),
            target_in(leaf, ENTRY, b"a"),
            attr_in(leaf, FILE_STAT),
        )),
        _ => None,
    }
}

// What the root has with one entry.
const ROOT_WITH_FILE: Attr = Attr {
    size: 1,
    bytes: 1,
    ..ROOT
};

// What a test wants to be built: the reply, how many objects come and go, the old cells and the new
// ones, and what these have of the file.
#[derive(Drop)]
struct Wanted {
    reply: &'static str,
    objects: ObjectCounts,
    rows: (Row, Row),
    old: Option<FileRow>,
    new: Option<FileRow>,
}

// The replies that come here.
fn spelled(reply: &Reply) -> &'static str {
    match reply {
        Reply::Okay => "ok",
        Reply::Absent => "absent",
        _ => "another reply",
    }
}

// Ends the test unless just this is built, which is dropped here and nowhere else.
fn expect<X: Abort>(rt: &X, built: Built, wanted: &Wanted) {
    expect_reply(rt, &built, wanted);
    expect_cells(rt, built.change(), wanted);
}

// Ends the test unless these are the reply, the objects and the numbers of cells.
fn expect_reply<X: Abort>(rt: &X, built: &Built, wanted: &Wanted) {
    assert_eq!(rt; spelled(built.reply()), wanted.reply);
    assert_eq!(rt; built.objects(), wanted.objects);
    assert_eq!(rt; outcome(built), Some(wanted.rows));
}

// Ends the test unless the old cells and the new ones have this of the file.
fn expect_cells<X: Abort>(rt: &X, change: &Change, wanted: &Wanted) {
    assert_eq!(rt; file_in(&change.old), wanted.old);
    assert_eq!(rt; file_in(&change.new), wanted.new);
}

// Ends the test unless this is built, with the bytes that were written.
fn expect_hello<X: Abort>(rt: &X, built: Built, wanted: &Wanted) {
    assert!(rt; has_bytes(&built.change().new, b"hello"));
    expect(rt, built, wanted);
}

// What is built of the file's creation on a fresh volume.
fn created(alloc: Global, gate: &Counter) -> Result<Built, Fail> {
    let cells = fresh_cells(alloc)?;
    build_creation(alloc, gate, cells)
}

// A file comes: the leaf alone is new, and has it.
#[test]
fn a_file_is_created(rt: HostRuntime) -> Result<(), Fail> {
    let gate = Counter::new();
    let wanted = Wanted {
        reply: "ok",
        objects: ObjectCounts { born: 1, gone: 0 },
        rows: ((1, Some((23, 1))), (1, Some((23, 3)))),
        old: Some((Some(ROOT), None, None)),
        new: Some((Some(ROOT_WITH_FILE), Some(FILE), Some(NEW_FILE))),
    };
    expect(&rt, created(rt.alloc(), &gate)?, &wanted);
    assert_eq!(rt; gate.count(), (1, 3005));
    Ok(())
}

// What is built where the root's times are set on a fresh volume.
fn timed(alloc: Global, gate: &Counter) -> Result<Built, Fail> {
    let cells = fresh_cells(alloc)?;
    build_times(alloc, gate, cells)
}

// The root's times are set in its leaf.
#[test]
fn times_are_set(rt: HostRuntime) -> Result<(), Fail> {
    let gate = Counter::new();
    let root = Attr {
        atime: 11,
        mtime: 12,
        ctime: 13,
        ..ROOT
    };
    let wanted = Wanted {
        reply: "ok",
        objects: ObjectCounts { born: 0, gone: 0 },
        rows: ((1, Some((23, 1))), (1, Some((23, 1)))),
        old: Some((Some(ROOT), None, None)),
        new: Some((Some(root), None, None)),
    };
    expect(&rt, timed(rt.alloc(), &gate)?, &wanted);
    assert_eq!(rt; gate.count(), (1, 3005));
    Ok(())
}

// What is built of a command that is refused on a fresh volume.
fn refused(alloc: Global, gate: &Counter) -> Result<Built, Fail> {
    let cells = fresh_cells(alloc)?;
    build_refused(alloc, gate, cells)
}

// A command that is refused changes no cell.
#[test]
fn a_command_is_refused(rt: HostRuntime) -> Result<(), Fail> {
    let gate = Counter::new();
    let wanted = Wanted {
        reply: "absent",
        objects: ObjectCounts { born: 0, gone: 0 },
        rows: ((0, None), (0, None)),
        old: None,
        new: None,
    };
    expect(&rt, refused(rt.alloc(), &gate)?, &wanted);
    assert_eq!(rt; gate.count(), (1, 3005));
    Ok(())
}

// The cells of a fresh volume, with a change in place.
fn cells_with(alloc: Global, change: &Change) -> Result<Cells, Fail>
    ensures { IfOk result IsSmall }
{
    let cells = fresh_cells(alloc)?;
    with_change(alloc, &cells, change)
}

// What is built of the bytes, where this change was made before.
fn written_behind(alloc: Global, gate: &Counter, change: &Change) -> Result<Built, Fail> {
    let cells = cells_with(alloc, change)?;
    build_writing(alloc, gate, cells)
}

// What is built of the bytes, where the file was created before.
fn written(alloc: Global, gate: &Counter) -> Result<Built, Fail> {
    let before = created(alloc, gate)?;
    written_behind(alloc, gate, before.change())
}

// Whether the one leaf has four items, of which the last is the file's bytes.
fn has_bytes(cells: &Cells, bytes: &[u8]) -> bool {
    match cells.as_slice() {
        [leaf] if leaf.level() == 1 => ends_with(leaf, bytes),
        _ => false,
    }
}

fn ends_with(leaf: &Cell, bytes: &[u8]) -> bool
    requires { leaf.now.level ≡ 1 }
{
    let node = leaf.node();
    if node.len() != 4 {
        return false;
    }
    let tail = node.item(3);
    tail.plugin == TAIL && tail.key.is_same(FIRST_BYTE) && tail.body == bytes
}

// Bytes come into the file that the change before created: the leaf is new once more.
#[test]
fn bytes_are_written_into_a_new_file(rt: HostRuntime) -> Result<(), Fail> {
    let gate = Counter::new();
    let file = Attr {
        size: 5,
        bytes: 5,
        ..NEW_FILE
    };
    let wanted = Wanted {
        reply: "ok",
        objects: ObjectCounts { born: 0, gone: 0 },
        rows: ((1, Some((23, 3))), (1, Some((23, 4)))),
        old: Some((Some(ROOT_WITH_FILE), Some(FILE), Some(NEW_FILE))),
        new: Some((Some(ROOT_WITH_FILE), Some(FILE), Some(file))),
    };
    expect_hello(&rt, written(rt.alloc(), &gate)?, &wanted);
    assert_eq!(rt; gate.count(), (2, 6010));
    Ok(())
}
