//! The command `list`, over volumes that are made by hand.

ghost use Rattle.r4_outside.specs.Device.{TellsCrashes};
ghost use Rattle.r4_outside.specs.Memory.{memory_state};

use crate::same::same;
use crate::trees::{Item, Shape, Spelling, finished, full, node, object, put, volume};
use r4_base::{Attr, Key, Oid, Target};
use r4_outside::{Device, MemoryDevice, MemorySink};
use r4_testing::call;
use std::alloc::Global;
use std::process::Abort;
use std::test::Fail;

const ROOT: Target = Target {
    locality: 41,
    ordering: 0,
    oid: Oid(42),
};

const LEAST: Key = Key {
    el: [657, 0, 42, 0],
};

fn attr(mode: u16, nlink: u32, size: u64) -> Attr {
    Attr {
        mode,
        nlink,
        size,
        uid: 0,
        gid: 0,
        atime: 0,
        mtime: 0,
        ctime: 0,
        bytes: size,
    }
}

// Lists a path, and looks at the status and at what is printed; nothing is written.
fn lists<X: Abort>(
    rt: &X,
    alloc: Global,
    dev: &mut MemoryDevice,
    path: &str,
    status: u8,
    text: &[u8],
) -> Result<(), Fail> {
    let mut out = MemorySink::new(alloc, 100)?;
    let before = dev.clock();
    let code = call(alloc, &["list", "image", path], dev, &mut out)?;
    same(rt, &code, &status, path);
    same(rt, &out.written(), &text, path);
    same(rt, &dev.clock(), &before, path);
    Ok(())
}

// A tree of height 3 with the file /f, of 12000 bytes: a block of a, a hole, a block of b.
fn with_extents(alloc: Global) -> Result<MemoryDevice, Fail> {
    let shape = Shape {
        height: 3,
        objects: 2,
        used: 0b0111,
    };
    let mut dev = volume(alloc, shape)?;
    let f = object(Oid(42), b"f", 65_536)?;
    put_one(alloc, &mut dev, 22, 3, 24)?;
    put_nodes_of_f(alloc, &mut dev, f)?;
    put_full(alloc, &mut dev, 25, b'a')?;
    put_full(alloc, &mut dev, 26, b'b')?;
    finished(alloc, dev)
}

// Puts the leaf and the twig of f.
fn put_nodes_of_f(alloc: Global, dev: &mut MemoryDevice, f: Target) -> Result<(), Fail>
    ensures { TellsCrashes (memory_state dev.old) → TellsCrashes (memory_state dev.new) }
{
    put_node(alloc, dev, 23, 1, leaf_of_f(alloc, f)?.as_slice())?;
    put_node(alloc, dev, 24, 2, twig_of_f(alloc, f)?.as_slice())
}

// The leaf: the root, its entry f, and the stat data of f.
fn leaf_of_f(alloc: Global, f: Target) -> Result<Vec<Item>, Fail> {
    let mut leaf = Vec::new(alloc);
    leaf.push(Item::stat(alloc, ROOT, &attr(0o40755, 2, 1))?)?;
    leaf.push(Item::entries(alloc, Oid(42), &[(b"f", f)])?)?;
    leaf.push(Item::stat(alloc, f, &attr(0o100_644, 1, 12_000))?)?;
    Ok(leaf)
}

// The twig: a pointer to the leaf, and the extents of f: a block, a hole, a block.
fn twig_of_f(alloc: Global, f: Target) -> Result<Vec<Item>, Fail> {
    let mut twig = Vec::new(alloc);
    twig.push(Item::pointer(alloc, LEAST, 23)?)?;
    twig.push(Item::extent(alloc, f, &[(25, 1), (0, 1), (26, 1)])?)?;
    Ok(twig)
}

// Paths there, and what is printed; of the file its line alone.
static PATHS: [(&str, &str); 6] = [
    ("/", "d 0755 2 0 0 1 /\nf 0644 1 0 0 12000 /f\n"),
    ("/q", "absent\n"),
    ("/f/x", "notdir\n"),
    ("/f/", "name\n"),
    ("/..", "name\n"),
    ("//", "name\n"),
];

#[test]
fn a_file_in_extents_is_listed(rt: HostRuntime) -> Result<(), Fail> {
    let alloc = rt.alloc();
    let mut dev = with_extents(alloc)?;
    for &(path, text) in &PATHS {
        lists(&rt, alloc, &mut dev, path, 0, text.as_bytes())?;
    }
    lists(&rt, alloc, &mut dev, "/f", 0, text_of_f(alloc)?.as_slice())
}

// The line of the file /f and its body.
fn text_of_f(alloc: Global) -> Result<Spelling, Fail> {
    let mut text = Spelling::new(alloc);
    text.text(b"f 0644 1 0 0 12000 /f\n")?;
    text.fill(b'a', 4096)?;
    text.fill(0, 4096)?;
    text.fill(b'b', 3808)?;
    text.text(b"\n")?;
    Ok(text)
}

// How many blocks are read for the root: header, footer, superblocks, bitmap, and three nodes.
const READS: u64 = 8;

#[test]
fn failures_end_a_listing(rt: HostRuntime) -> Result<(), Fail> {
    let alloc = rt.alloc();
    for read in 1..READS + 2 {
        let (status, text) = if read > READS {
            (0, PATHS[0].1)
        } else {
            (6, "device: clock 0 faults 1\n")
        };
        lists_where_a_read_fails(&rt, alloc, read, status, text)?;
    }
    lists_where_a_print_fails(&rt, alloc)
}

// Lists the root where this read fails, counted from 1.
fn lists_where_a_read_fails<X: Abort>(
    rt: &X,
    alloc: Global,
    read: u64,
    status: u8,
    text: &str,
) -> Result<(), Fail> {
    let mut dev = with_extents(alloc)?;
    dev.fail(alloc, read)?;
    lists(rt, alloc, &mut dev, "/", status, text.as_bytes())
}

// Lists the root where the first print fails.
fn lists_where_a_print_fails<X: Abort>(rt: &X, alloc: Global) -> Result<(), Fail> {
    let mut dev = with_extents(alloc)?;
    let mut out = MemorySink::new(alloc, 100)?;
    out.fail(alloc, 1)?;
    let code = call(alloc, &["list", "image"], &mut dev, &mut out)?;
    same(rt, &code, &5, "status");
    same(rt, &out.written(), &b"".as_slice(), "text");
    Ok(())
}

// The block that the root of a fresh volume points to, and the line.
static POINTERS: [(u64, &str); 2] = [
    (70, "image: block 22: pointer\n"),
    (22, "image: block 22: level\n"),
];

#[test]
fn a_pointer_to_no_node_is_refused(rt: HostRuntime) -> Result<(), Fail> {
    let alloc = rt.alloc();
    for &(to, line) in &POINTERS {
        let mut dev = with_root_to(alloc, to)?;
        lists(&rt, alloc, &mut dev, "/", 7, line.as_bytes())?;
    }
    Ok(())
}

// A fresh volume but for its root, which has one pointer, to the block `to`.
fn with_root_to(alloc: Global, to: u64) -> Result<MemoryDevice, Fail> {
    let shape = Shape {
        height: 2,
        objects: 1,
        used: 0,
    };
    let mut dev = volume(alloc, shape)?;
    put_one(alloc, &mut dev, 22, 2, to)?;
    finished(alloc, dev)
}

// Puts a node of a level in a block's place that has one pointer, to the block `to`.
fn put_one(alloc: Global, dev: &mut MemoryDevice, at: u64, level: u64, to: u64) -> Result<(), Fail>
    ensures { TellsCrashes (memory_state dev.old) → TellsCrashes (memory_state dev.new) }
{
    let mut items = Vec::new(alloc);
    items.push(Item::pointer(alloc, LEAST, to)?)?;
    put_node(alloc, dev, at, level, items.as_slice())
}

// Puts a node of a level in a block's place that has these items.
fn put_node(
    alloc: Global,
    dev: &mut MemoryDevice,
    at: u64,
    level: u64,
    items: &[Item],
) -> Result<(), Fail>
    ensures { TellsCrashes (memory_state dev.old) → TellsCrashes (memory_state dev.new) }
{
    put(alloc, dev, at, node(alloc, level, items)?.as_slice())
}

// Puts a block that is full of one byte in a block's place.
fn put_full(alloc: Global, dev: &mut MemoryDevice, at: u64, byte: u8) -> Result<(), Fail>
    ensures { TellsCrashes (memory_state dev.old) → TellsCrashes (memory_state dev.new) }
{
    put(alloc, dev, at, full(alloc, byte)?.as_slice())
}

// A fresh volume of so many objects but for its leaf, which has these items.
fn with_leaf(alloc: Global, objects: u64, leaf: &[Item]) -> Result<MemoryDevice, Fail> {
    let shape = Shape {
        height: 2,
        objects,
        used: 0,
    };
    let mut dev = volume(alloc, shape)?;
    put_node(alloc, &mut dev, 23, 1, leaf)?;
    finished(alloc, dev)
}

// A tree of height 8, whose nodes have a pointer each: the root in block 22, the others from block 24 on, and the leaf of
// a fresh volume.
#[test]
fn a_high_tree_is_listed(rt: HostRuntime) -> Result<(), Fail> {
    let alloc = rt.alloc();
    let shape = Shape {
        height: 8,
        objects: 1,
        used: 0b11_1111,
    };
    let mut dev = volume(alloc, shape)?;
    put_high(alloc, &mut dev)?;
    let mut dev = finished(alloc, dev)?;
    lists(&rt, alloc, &mut dev, "/", 0, b"d 0755 2 0 0 0 /\n")
}

// Puts the nodes of the high tree.
fn put_high(alloc: Global, dev: &mut MemoryDevice) -> Result<(), Fail>
    ensures { TellsCrashes (memory_state dev.old) → TellsCrashes (memory_state dev.new) }
{
    put_high_nodes(alloc, dev)?;
    put_low_nodes(alloc, dev)
}

// Puts the nodes of levels 8 to 6.
fn put_high_nodes(alloc: Global, dev: &mut MemoryDevice) -> Result<(), Fail>
    ensures { TellsCrashes (memory_state dev.old) → TellsCrashes (memory_state dev.new) }
{
    put_one(alloc, dev, 22, 8, 24)?;
    put_one(alloc, dev, 24, 7, 25)?;
    put_one(alloc, dev, 25, 6, 26)
}

// Puts the nodes of levels 5 to 2.
fn put_low_nodes(alloc: Global, dev: &mut MemoryDevice) -> Result<(), Fail>
    ensures { TellsCrashes (memory_state dev.old) → TellsCrashes (memory_state dev.new) }
{
    put_one(alloc, dev, 26, 5, 27)?;
    put_one(alloc, dev, 27, 4, 28)?;
    put_one(alloc, dev, 28, 3, 29)?;
    put_one(alloc, dev, 29, 2, 23)
}

// Two entries of the root name one directory, which has a file.
#[test]
fn a_directory_is_listed_once(rt: HostRuntime) -> Result<(), Fail> {
    let alloc = rt.alloc();
    let mut dev = with_leaf(alloc, 3, leaf_of_a_and_b(alloc)?.as_slice())?;
    let text = "d 0755 4 0 0 2 /\nd 0700 2 0 0 1 /a\nf 4755 1 0 0 0 /a/x\nd 0700 2 0 0 1 /b\n";
    lists(&rt, alloc, &mut dev, "/", 0, text.as_bytes())
}

// The root's entries a and b name the directory, whose entry x is the file.
fn leaf_of_a_and_b(alloc: Global) -> Result<Vec<Item>, Fail> {
    let mut leaf = Vec::new(alloc);
    add_root_of_a_and_b(alloc, &mut leaf)?;
    add_directory_of_x(alloc, &mut leaf)?;
    Ok(leaf)
}

// The root, and its entries a and b.
fn add_root_of_a_and_b(alloc: Global, leaf: &mut Vec<Item>) -> Result<(), Fail> {
    let d = object(Oid(42), b"a", 65_536)?;
    leaf.push(Item::stat(alloc, ROOT, &attr(0o40755, 4, 2))?)?;
    leaf.push(Item::entries(alloc, Oid(42), &[(b"a", d), (b"b", d)])?)?;
    leaf.push(Item::stat(alloc, d, &attr(0o40700, 2, 1))?)?;
    Ok(())
}

// The directory's entry x, and the file.
fn add_directory_of_x(alloc: Global, leaf: &mut Vec<Item>) -> Result<(), Fail> {
    let x = object(Oid(65_536), b"x", 65_537)?;
    leaf.push(Item::entries(alloc, Oid(65_536), &[(b"x", x)])?)?;
    leaf.push(Item::stat(alloc, x, &attr(0o104_755, 1, 0))?)?;
    Ok(())
}

// The longest name, and a file of a tail.
#[test]
fn a_long_name_is_listed(rt: HostRuntime) -> Result<(), Fail> {
    let name = [b'n'; 255];
    let leaf = leaf_of_a_tail(rt.alloc(), &name)?;
    let mut dev = with_leaf(rt.alloc(), 2, leaf.as_slice())?;
    lists_the_root(&rt, rt.alloc(), &mut dev, &name)?;
    lists_the_file(&rt, rt.alloc(), &mut dev)
}

// Lists the root with the file of this name.
fn lists_the_root<X: Abort>(
    rt: &X,
    alloc: Global,
    dev: &mut MemoryDevice,
    name: &[u8],
) -> Result<(), Fail> {
    let text = between(alloc, b"d 0755 2 0 0 1 /\nf 0600 1 0 0 5 /", name, b"\n")?;
    lists(rt, alloc, dev, "/", 0, text.as_slice())
}

// Lists the file of the longest name.
fn lists_the_file<X: Abort>(rt: &X, alloc: Global, dev: &mut MemoryDevice) -> Result<(), Fail> {
    let path = long_path(alloc)?;
    let text = between(alloc, b"f 0600 1 0 0 5 ", path.as_bytes(), b"\nhello\n")?;
    lists(rt, alloc, dev, &path, 0, text.as_slice())
}

// A file of this name whose body is a tail.
fn leaf_of_a_tail(alloc: Global, name: &[u8]) -> Result<Vec<Item>, Fail> {
    let f = object(Oid(42), name, 65_536)?;
    let mut leaf = Vec::new(alloc);
    leaf.push(Item::stat(alloc, ROOT, &attr(0o40755, 2, 1))?)?;
    leaf.push(Item::entries(alloc, Oid(42), &[(name, f)])?)?;
    add_file_of_a_tail(alloc, &mut leaf, f)?;
    Ok(leaf)
}

// The stat data of the file, and its tail.
fn add_file_of_a_tail(alloc: Global, leaf: &mut Vec<Item>, f: Target) -> Result<(), Fail> {
    leaf.push(Item::stat(alloc, f, &attr(0o100_600, 1, 5))?)?;
    leaf.push(Item::tail(alloc, f, b"hello")?)?;
    Ok(())
}

// A text in three pieces.
fn between(alloc: Global, front: &[u8], middle: &[u8], back: &[u8]) -> Result<Spelling, Fail> {
    let mut text = Spelling::new(alloc);
    text.text(front)?;
    text.text(middle)?;
    text.text(back)?;
    Ok(text)
}

// A slash and the longest name.
fn long_path(alloc: Global) -> Result<String, Fail> {
    let mut path = String::from_str(alloc, "/")?;
    for _byte in 0..255u8 {
        path.push('n')?;
    }
    Ok(path)
}
