//! A leaf with a few objects, of which something is wrong.

use crate::laid::{Shape, finds, shaped};
use r4_base::Oid;
use r4_cell::least;
use r4_outside::MemoryDevice;
use r4_tree_testing::{Item, Object, entry, extent, lay, pointer, stat, tail};
use std::alloc::Global;
use std::process::Abort;
use std::test::Fail;

// The root directory, with so many entries, none of which names a directory.
fn root(size: u64) -> Object {
    directory(0, 41, 42, 2, size)
}

fn directory(letter: u8, dir: u32, oid: u32, nlink: u32, size: u64) -> Object {
    Object {
        letter,
        dir,
        oid,
        mode: 0o40755,
        nlink,
        size,
    }
}

// A file in the root directory.
fn file(letter: u8, oid: u32, nlink: u32, size: u64) -> Object {
    Object {
        letter,
        dir: 42,
        oid,
        mode: 0o100644,
        nlink,
        size,
    }
}

/// An item of a leaf: the stat data of an object, an entry of a directory that names one, or the bytes of a file.
#[derive(Clone, Copy)]
enum Part {
    Stat(Object),
    Entry(u32, u8, Object),
    Tail(Object, u16),
}

impl Part {
    // The item that it says.
    fn item(&self, alloc: Global) -> Result<Item, Fail> {
        match self {
            Part::Stat(object) => stat(alloc, object.stat_key(), &object.attr()),
            Part::Entry(dir, letter, object) => {
                let dir = Oid(u64::from(*dir));
                entry(alloc, dir, &[*letter], &object.target())
            }
            Part::Tail(file, bytes) => tail(alloc, file.byte(0), *bytes, b'x'),
        }
    }
}

// The items of a leaf.
fn items(alloc: Global, parts: &[Part]) -> Result<Vec<Item>, Fail> {
    let mut items = Vec::new(alloc);
    for part in parts {
        items.push(part.item(alloc)?)?;
    }
    Ok(items)
}

// The items of the twig: the leaf, and behind it a body.
fn twig(alloc: Global, body: Option<Item>) -> Result<Vec<Item>, Fail> {
    let mut twig = Vec::new(alloc);
    twig.push(pointer(alloc, least(), 23)?)?;
    if let Some(item) = body {
        twig.push(item)?;
    }
    Ok(twig)
}

// A volume of this shape, of a twig and a leaf.
fn laid(alloc: Global, shape: &Shape, leaf: &[Item], twig: &[Item]) -> Result<MemoryDevice, Fail> {
    let mut dev = shaped(alloc, shape)?;
    lay(alloc, &mut dev, 23, 1, leaf)?;
    lay(alloc, &mut dev, 22, 2, twig)?;
    Ok(dev)
}

// A volume of a twig and this leaf; blocks 40 and 41 are in use where the twig has an extent.
fn volume(
    alloc: Global,
    leaf: &[Part],
    body: Option<Item>,
    files: u8,
) -> Result<MemoryDevice, Fail> {
    let (bits, count) = if body.is_some() { (3, 2) } else { (0, 0) };
    let shape = Shape {
        root: 22,
        height: 2,
        files,
        used: [0, 0, bits],
        count,
    };
    let leaf = items(alloc, leaf)?;
    let twig = twig(alloc, body)?;
    laid(alloc, &shape, leaf.as_slice(), twig.as_slice())
}

// A volume of the root and the file `/f`, whose body is this extent.
fn with_extent(alloc: Global, size: u64, units: &[(u64, u64)]) -> Result<MemoryDevice, Fail> {
    let f = file(b'f', 43, 1, size);
    let leaf = [Part::Stat(root(1)), Part::Entry(42, b'f', f), Part::Stat(f)];
    volume(alloc, &leaf, Some(extent(alloc, f.byte(0), units)?), 2)
}

// A volume of the root and the file `/f`, whose body is so many bytes.
fn with_tail(alloc: Global, oid: u32, size: u64, bytes: u16) -> Result<MemoryDevice, Fail> {
    let f = file(b'f', oid, 1, size);
    let leaf = [
        Part::Stat(root(1)),
        Part::Entry(42, b'f', f),
        Part::Stat(f),
        Part::Tail(f, bytes),
    ];
    volume(alloc, &leaf, None, 2)
}

// What a check prints of a leaf with so many objects, of which one thing or more is wrong.
fn leaf_finds<X: Abort>(
    rt: &X,
    alloc: Global,
    leaf: &[Part],
    objects: u8,
    lines: &str,
    faults: u64,
) -> Result<(), Fail> {
    let mut dev = volume(alloc, leaf, None, objects)?;
    finds(rt, alloc, &mut dev, lines, u64::from(objects), faults)
}

const SIZE: &str = "fault block 23: size\n";

const LOST: &str = "fault block 23: lost\n";

// How many bytes of the three the file's tail has, what a check prints, and how many faults it counts.
static TAILS: [(u16, &str, u64); 2] = [(3, "", 0), (4, SIZE, 1)];

// The size of the file, its extent's units, what a check prints, and how many faults it counts.
static EXTENTS: [(u64, &[(u64, u64)], &str, u64); 3] = [
    (9000, &[(40, 1), (0, 1), (41, 1)], "", 0),
    (9000, &[(40, 1), (41, 1)], SIZE, 1),
    (0, &[(40, 2)], SIZE, 1),
];

// Looks at files with a tail.
fn look_at_tails<X: Abort>(rt: &X, alloc: Global) -> Result<(), Fail> {
    for (bytes, lines, faults) in TAILS {
        let mut dev = with_tail(alloc, 43, 3, bytes)?;
        finds(rt, alloc, &mut dev, lines, 2, faults)?;
    }
    Ok(())
}

// Looks at files with an extent.
fn look_at_extents<X: Abort>(rt: &X, alloc: Global) -> Result<(), Fail> {
    for (size, units, lines, faults) in EXTENTS {
        let mut dev = with_extent(alloc, size, units)?;
        finds(rt, alloc, &mut dev, lines, 2, faults)?;
    }
    Ok(())
}

#[test]
fn bodies_are_as_long_as_their_files(rt: HostRuntime) -> Result<(), Fail> {
    look_at_tails(&rt, rt.alloc())?;
    look_at_extents(&rt, rt.alloc())
}

#[test]
fn no_object_has_an_id_below_42(rt: HostRuntime) -> Result<(), Fail> {
    let mut dev = with_tail(rt.alloc(), 41, 3, 3)?;
    finds(&rt, rt.alloc(), &mut dev, "fault block 23: id\n", 2, 1)
}

#[test]
fn no_two_objects_have_one_id(rt: HostRuntime) -> Result<(), Fail> {
    let a = file(b'a', 43, 1, 0);
    let b = file(b'b', 43, 1, 0);
    let leaf = [
        Part::Stat(root(2)),
        Part::Entry(42, b'a', a),
        Part::Entry(42, b'b', b),
        Part::Stat(a),
        Part::Stat(b),
    ];
    leaf_finds(&rt, rt.alloc(), &leaf, 3, LOST, 1)
}

#[test]
fn an_entry_has_its_target(rt: HostRuntime) -> Result<(), Fail> {
    let gone = file(b'a', 43, 1, 0);
    let leaf = [Part::Stat(root(1)), Part::Entry(42, b'a', gone)];
    leaf_finds(&rt, rt.alloc(), &leaf, 1, LOST, 1)
}

#[test]
fn what_nobody_names_is_lost(rt: HostRuntime) -> Result<(), Fail> {
    let leaf = [Part::Stat(root(0)), Part::Stat(file(b'a', 43, 0, 0))];
    leaf_finds(&rt, rt.alloc(), &leaf, 2, LOST, 1)
}

// Two directories, each of which has the other's only entry.
#[test]
fn a_cycle_is_lost(rt: HostRuntime) -> Result<(), Fail> {
    let x = directory(b'x', 44, 43, 3, 1);
    let y = directory(b'y', 43, 44, 3, 1);
    let leaf = [
        Part::Stat(root(0)),
        Part::Entry(43, b'y', y),
        Part::Stat(y),
        Part::Entry(44, b'x', x),
        Part::Stat(x),
    ];
    let lines = "fault block 23: lost\nfault block 23: lost\n";
    leaf_finds(&rt, rt.alloc(), &leaf, 3, lines, 2)
}
