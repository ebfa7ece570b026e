//! Volumes that are made by hand: a fresh one of 64 blocks, with other nodes (docs/layout.md, "Nodes" and "Items").

ghost use Rattle.std.specs.Prelude.{IfOk};
ghost use Rattle.r4_outside.specs.Device.{TellsCrashes};
ghost use Rattle.r4_outside.specs.Memory.{memory_state};

use r4_base::{Attr, Block, BlockNo, Key, Oid, Target, put16, put64};
use r4_cde::entry_key;
use r4_meta::write_stat;
use r4_outside::{Device, MemoryDevice, MemorySink};
use r4_testing::call;
use std::alloc::Global;
use std::test::Fail;

/// Bytes that are spelled one after the other.
#[derive(Drop)]
pub struct Spelling {
    bytes: Vec<u8>,
}

impl Spelling {
    pub fn new(alloc: Global) -> Spelling {
        Spelling {
            bytes: Vec::new(alloc),
        }
    }

    /// A number in so many bytes, the lowest first.
    pub fn number(&mut self, number: u64, bytes: usize) -> Result<(), Fail> {
        let mut left = number;
        for _byte in 0..bytes {
            self.bytes.push((left % 256) as u8)?;
            left /= 256;
        }
        Ok(())
    }

    pub fn text(&mut self, text: &[u8]) -> Result<(), Fail> {
        for &byte in text {
            self.bytes.push(byte)?;
        }
        Ok(())
    }

    pub fn fill(&mut self, byte: u8, count: usize) -> Result<(), Fail> {
        for _byte in 0..count {
            self.bytes.push(byte)?;
        }
        Ok(())
    }

    pub fn as_slice(&self) -> &[u8] {
        self.bytes.as_slice()
    }

    fn key(&mut self, key: Key) -> Result<(), Fail> {
        for number in key.el {
            self.number(number, 8)?;
        }
        Ok(())
    }
}

/// An item of a node.
#[derive(Drop)]
pub struct Item {
    key: Key,
    plugin: u64,
    body: Spelling,
}

impl Item {
    /// The stat data of an object.
    pub fn stat(alloc: Global, object: Target, attr: &Attr) -> Result<Item, Fail> {
        let mut bytes = [0u8; 44];
        write_stat(&mut bytes, attr);
        let mut body = Spelling::new(alloc);
        body.text(&bytes)?;
        Ok(Item {
            key: key_of(object, 1),
            plugin: 0,
            body,
        })
    }

    /// A pointer to a node whose range begins at a key.
    pub fn pointer(alloc: Global, key: Key, to: u64) -> Result<Item, Fail> {
        let mut body = Spelling::new(alloc);
        body.number(to, 8)?;
        Ok(Item {
            key,
            plugin: 3,
            body,
        })
    }

    /// The body of a file in one tail.
    pub fn tail(alloc: Global, file: Target, bytes: &[u8]) -> Result<Item, Fail> {
        let mut body = Spelling::new(alloc);
        body.text(bytes)?;
        Ok(Item {
            key: key_of(file, 4),
            plugin: 6,
            body,
        })
    }

    /// The body of a file in extents: starts and widths.
    pub fn extent(alloc: Global, file: Target, units: &[(u64, u64)]) -> Result<Item, Fail> {
        let mut body = Spelling::new(alloc);
        for &(start, width) in units {
            body.number(start, 8)?;
            body.number(width, 8)?;
        }
        Ok(Item {
            key: key_of(file, 4),
            plugin: 5,
            body,
        })
    }

    /// Entries of a directory, in the order of their keys.
    pub fn entries(alloc: Global, dir: Oid, entries: &[(&[u8], Target)]) -> Result<Item, Fail> {
        let key = first_key(dir, entries)?;
        let mut body = Spelling::new(alloc);
        body.number(entries.len() as u64, 2)?;
        spell_headers(&mut body, dir, entries)?;
        spell_targets(&mut body, entries)?;
        Ok(Item {
            key,
            plugin: 2,
            body,
        })
    }
}

// The key of the first of the entries.
fn first_key(dir: Oid, entries: &[(&[u8], Target)]) -> Result<Key, Fail> {
    match entries.first() {
        Some(entry) => name_key(dir, entry.0),
        None => Ok(Key { el: [0; 4] }),
    }
}

// The headers of entries.
fn spell_headers(
    headers: &mut Spelling,
    dir: Oid,
    entries: &[(&[u8], Target)],
) -> Result<(), Fail> {
    let mut at = (26 * entries.len() as u64).wrapping_add(2);
    for &(name, _) in entries {
        spell_header(headers, name_key(dir, name)?, at)?;
        at = at.wrapping_add(target_len(name));
    }
    Ok(())
}

// The bodies of entries.
fn spell_targets(bodies: &mut Spelling, entries: &[(&[u8], Target)]) -> Result<(), Fail> {
    for &(name, target) in entries {
        spell_target(bodies, target, name)?;
    }
    Ok(())
}

// How many bytes an entry's body has.
fn target_len(name: &[u8]) -> u64 {
    if name.len() > 23 {
        (name.len() as u64).wrapping_add(25)
    } else {
        24
    }
}

// An entry's header: its key without the directory, and where its body begins.
fn spell_header(headers: &mut Spelling, named: Key, at: u64) -> Result<(), Fail> {
    for number in [named.el[1], named.el[2], named.el[3]] {
        headers.number(number, 8)?;
    }
    headers.number(at, 2)
}

// An entry's body: what it names, and a long name.
fn spell_target(body: &mut Spelling, target: Target, name: &[u8]) -> Result<(), Fail> {
    for number in [target.locality, target.ordering, target.oid.0] {
        body.number(number, 8)?;
    }
    if name.len() > 23 {
        body.text(name)?;
        body.number(0, 1)?;
    }
    Ok(())
}

// The key of a name in a directory.
fn name_key(dir: Oid, name: &[u8]) -> Result<Key, Fail> {
    if dir.0 >= 1 << 60 {
        return Err(Fail::from("no directory has this number"));
    }
    match entry_key(dir, name) {
        Ok(key) => Ok(key),
        Err(_) => Err(Fail::from("this is no name")),
    }
}

/// An object whose entry was made in this directory under this name.
pub fn object(dir: Oid, name: &[u8], oid: u64) -> Result<Target, Fail> {
    let key = name_key(dir, name)?;
    Ok(Target {
        locality: dir.0,
        ordering: key.el[1],
        oid: Oid(oid),
    })
}

// The first key of an object of a minor type.
fn key_of(object: Target, minor: u64) -> Key {
    Key {
        el: [
            object.locality.wrapping_mul(16).wrapping_add(minor),
            object.ordering,
            object.oid.0,
            0,
        ],
    }
}

/// A node of a level.
pub fn node(alloc: Global, level: u64, items: &[Item]) -> Result<Spelling, Fail> {
    let mut node = Spelling::new(alloc);
    spell_node(&mut node, level, items)?;
    Ok(node)
}

// Spells a node.
fn spell_node(node: &mut Spelling, level: u64, items: &[Item]) -> Result<(), Fail> {
    let end = end_of_bodies(items);
    let free = 4096u64
        .wrapping_sub(end)
        .wrapping_sub(38u64.wrapping_mul(items.len() as u64));
    spell_front(node, [items.len() as u64, free, end], level)?;
    spell_bodies(node, items)?;
    node.fill(0, free.min(4096) as usize)?;
    spell_items(node, items, end)
}

// Where the bodies of a node's items end.
fn end_of_bodies(items: &[Item]) -> u64 {
    let mut end: u64 = 28;
    for item in items {
        end = end.wrapping_add(item.body.bytes.len() as u64);
    }
    end
}

// The bodies of a node's items.
fn spell_bodies(node: &mut Spelling, items: &[Item]) -> Result<(), Fail> {
    for item in items {
        node.text(item.body.as_slice())?;
    }
    Ok(())
}

// The headers of a node's items, the last one first.
fn spell_items(node: &mut Spelling, items: &[Item], end: u64) -> Result<(), Fail> {
    let mut start = end;
    for item in items.iter().rev() {
        start = start.wrapping_sub(item.body.bytes.len() as u64);
        spell_item(node, item, start)?;
    }
    Ok(())
}

// A node's header. The counts are how many items there are, how many bytes are free, and where those begin.
fn spell_front(node: &mut Spelling, counts: [u64; 3], level: u64) -> Result<(), Fail> {
    node.number(0, 2)?;
    for count in counts {
        node.number(count, 2)?;
    }
    node.number(0x5234_4653, 4)?;
    node.number(1, 4)?;
    node.number(0, 8)?;
    node.number(0, 2)?;
    node.number(level, 1)?;
    node.number(0, 1)
}

// An item's header: its key, where its body begins, flags and its plugin.
fn spell_item(node: &mut Spelling, item: &Item, start: u64) -> Result<(), Fail> {
    node.key(item.key)?;
    node.number(start, 2)?;
    node.number(0, 2)?;
    node.number(item.plugin, 2)
}

/// A block that is full of one byte.
pub fn full(alloc: Global, byte: u8) -> Result<Spelling, Fail> {
    let mut block = Spelling::new(alloc);
    block.fill(byte, 4096)?;
    Ok(block)
}

/// Puts bytes in a block's place.
pub fn put(alloc: Global, dev: &mut MemoryDevice, at: u64, bytes: &[u8]) -> Result<(), Fail>
    ensures { TellsCrashes (memory_state dev.old) → TellsCrashes (memory_state dev.new) }
{
    if bytes.len() != 4096 {
        return Err(Fail::from("this is no block"));
    }
    let mut block = Block::zeroed(alloc)?;
    block.bytes_mut().copy_from_slice(bytes);
    put_block(dev, at, &block)
}

// Puts a block in another one's place.
fn put_block(dev: &mut MemoryDevice, at: u64, block: &Block) -> Result<(), Fail>
    ensures { TellsCrashes (memory_state dev.old) → TellsCrashes (memory_state dev.new) }
{
    if at >= dev.blocks()? {
        return Err(Fail::from("there is no such block"));
    }
    dev.write(BlockNo(at), block)?;
    Ok(())
}

// Reads a block.
fn get_block(dev: &mut MemoryDevice, at: u64, block: &mut Block) -> Result<(), Fail>
    ensures { TellsCrashes (memory_state dev.old) → TellsCrashes (memory_state dev.new) }
{
    if at >= dev.blocks()? {
        return Err(Fail::from("there is no such block"));
    }
    dev.read(BlockNo(at), block)?;
    Ok(())
}

/// What a hand-made volume has beside a fresh one: the height of its tree, how many objects there are, and which of the
/// blocks 24 to 31 are used, the lowest bit for block 24.
#[derive(Clone, Copy)]
pub struct Shape {
    pub height: u16,
    pub objects: u64,
    pub used: u8,
}

/// A fresh volume of 64 blocks whose superblock and bitmap say this.
pub fn volume(alloc: Global, shape: Shape) -> Result<MemoryDevice, Fail>
    ensures { IfOk result (λ d. TellsCrashes (memory_state d)) }
{
    let mut dev = fresh(alloc)?;
    reshape(&mut dev, &mut Block::zeroed(alloc)?, shape)?;
    Ok(dev)
}

// A fresh volume of 64 blocks.
fn fresh(alloc: Global) -> Result<MemoryDevice, Fail>
    ensures { IfOk result (λ d. TellsCrashes (memory_state d)) }
{
    let mut dev = MemoryDevice::new(alloc, 64)?;
    let mut out = MemorySink::new(alloc, 100)?;
    call(alloc, &["mkfs", "image"], &mut dev, &mut out)?;
    Ok(dev)
}

// Makes the superblock and the bitmap say this, by way of a block.
fn reshape(dev: &mut MemoryDevice, block: &mut Block, shape: Shape) -> Result<(), Fail>
    ensures { TellsCrashes (memory_state dev.old) → TellsCrashes (memory_state dev.new) }
{
    get_block(dev, 17, block)?;
    spell_super(block, shape);
    put_block(dev, 17, block)?;
    get_block(dev, 18, block)?;
    block.bytes_mut()[7] = shape.used;
    put_block(dev, 18, block)
}

// What a superblock says.
fn spell_super(block: &mut Block, shape: Shape) {
    let bytes = block.bytes_mut();
    let used = u64::from(shape.used.count_ones());
    put64(bytes, 8, 40u64.wrapping_sub(used));
    put64(bytes, 24, 65_600);
    put64(bytes, 32, shape.objects);
    put16(bytes, 68, shape.height);
}

/// The device as it stands, synced, of which no call was made.
pub fn finished(alloc: Global, dev: MemoryDevice) -> Result<MemoryDevice, Fail>
    requires { TellsCrashes (memory_state dev) }
{
    let mut dev = dev;
    dev.sync()?;
    Ok(dev.crash(alloc, dev.clock(), 0)?)
}
