//! Trees beside those of `volume`, whose blocks they have but for these:
//!
//! - `emptied_tails`: `/f` stood in tails and has no bytes any more. Leaves 25 and 26, its own, have no items, and 27 has
//!   `/g`.
//! - `emptied_extents`: `/f` stood in extents and has no bytes any more. The range of leaf 24 goes on to `/g`.
//! - `emptied_twig`: the same at height 3, where the range of twig 30 begins with `/f`: leaf 25, which has no items, is
//!   over it.
//! - `nine_twigs`: `/f` has 16,384 bytes in the leaves 34 to 51, two of them below each of the twigs 52 to 60. All but the
//!   last have 900 bytes, and the last has `/g` too. Above the twigs stands the root 61, or at height 4 three nodes of
//!   three twigs each, 30 to 32, below the root 33.
//! - `sixteen_blocks`: `/f` has 65,536 bytes in the blocks 44 to 59, one run at height 2.

use r4_base::{Key, NodeId};
use r4_cell::{Root, least};
use r4_outside::MemoryDevice;
use r4_tree_testing::{
    Bodies, D, F, G, H, Item, OBJECTS, Object, extent, lay, pointer, stat, tail, volume,
};
use std::alloc::Global;
use std::test::Fail;

// The least key of the stat data of what is in the root.
const STATS: Key = Key { el: [673, 0, 0, 0] };

// How many bytes of the file a leaf has, but for the last.
const STEP: u64 = 900;

/// `/f` without bytes, whose leaves are there.
pub fn emptied_tails(alloc: Global, height: u8) -> Result<(MemoryDevice, Root), Fail> {
    let (mut dev, root) = volume(alloc, Bodies::Tails, height)?;
    lay_stats(alloc, &mut dev, 0)?;
    lay(alloc, &mut dev, 25, 1, &[])?;
    lay(alloc, &mut dev, 26, 1, &[])?;
    lay(
        alloc,
        &mut dev,
        27,
        1,
        &[tail(alloc, G.byte(0), 100, b'g')?],
    )?;
    Ok((dev, root))
}

/// `/f` without bytes, whose extent's range went to the leaf before it.
pub fn emptied_extents(alloc: Global, height: u8) -> Result<(MemoryDevice, Root), Fail> {
    let (mut dev, root) = volume(alloc, Bodies::Extents, height)?;
    lay_stats(alloc, &mut dev, 0)?;
    let mut items = before(alloc)?;
    if height == 2 {
        add_behind(alloc, &mut items)?;
        lay(alloc, &mut dev, 30, 2, items.as_slice())?;
    } else {
        lay(alloc, &mut dev, 22, 2, items.as_slice())?;
    }
    Ok((dev, root))
}

/// `/f` without bytes, whose extent's range went to a leaf of its own.
pub fn emptied_twig(alloc: Global) -> Result<(MemoryDevice, Root), Fail> {
    let (mut dev, root) = volume(alloc, Bodies::Extents, 3)?;
    lay_stats(alloc, &mut dev, 0)?;
    lay(alloc, &mut dev, 25, 1, &[])?;
    lay(alloc, &mut dev, 22, 2, before(alloc)?.as_slice())?;
    lay_behind(alloc, &mut dev)?;
    lay_both(alloc, &mut dev)?;
    Ok((dev, root))
}

// The twig over leaf 25 and what comes behind the file.
fn lay_behind(alloc: Global, dev: &mut MemoryDevice) -> Result<(), Fail> {
    let mut items = Vec::new(alloc);
    items.push(pointer(alloc, F.byte(0), 25)?)?;
    add_behind(alloc, &mut items)?;
    lay(alloc, dev, 30, 2, items.as_slice())
}

// The root over both twigs.
fn lay_both(alloc: Global, dev: &mut MemoryDevice) -> Result<(), Fail> {
    let low = pointer(alloc, least(), 22)?;
    let high = pointer(alloc, F.byte(0), 30)?;
    lay(alloc, dev, 31, 3, &[low, high])
}

/// `/f` in leaves below nine twigs, at height 3, or for any other number at height 4.
pub fn nine_twigs(alloc: Global, height: u8) -> Result<(MemoryDevice, Root), Fail> {
    let (mut dev, _) = volume(alloc, Bodies::Tails, 2)?;
    lay_stats(alloc, &mut dev, 16_384)?;
    lay_leaves(alloc, &mut dev)?;
    lay_twigs(alloc, &mut dev)?;
    if height == 3 {
        lay_over(alloc, &mut dev, 61, 0, 9)?;
        return Ok((dev, rooted(61, 3)));
    }
    lay_threes(alloc, &mut dev)?;
    Ok((dev, rooted(33, 4)))
}

/// `/f` in a run of sixteen blocks.
pub fn sixteen_blocks(alloc: Global) -> Result<(MemoryDevice, Root), Fail> {
    let (mut dev, root) = volume(alloc, Bodies::Extents, 2)?;
    lay_stats(alloc, &mut dev, 65_536)?;
    let mut items = before(alloc)?;
    items.push(extent(alloc, F.byte(0), &[(44, 16)])?)?;
    add_behind(alloc, &mut items)?;
    lay(alloc, &mut dev, 30, 2, items.as_slice())?;
    Ok((dev, root))
}

// The leaves of the file.
fn lay_leaves(alloc: Global, dev: &mut MemoryDevice) -> Result<(), Fail> {
    for leaf in 0..17u8 {
        let items = [tail(alloc, start(leaf), 900, b'a')?];
        lay(alloc, dev, leaf_block(leaf), 1, &items)?;
    }
    let mut items = Vec::new(alloc);
    items.push(tail(alloc, start(17), 1084, b'b')?)?;
    items.push(tail(alloc, G.byte(0), 100, b'g')?)?;
    lay(alloc, dev, leaf_block(17), 1, items.as_slice())
}

// The nine twigs.
fn lay_twigs(alloc: Global, dev: &mut MemoryDevice) -> Result<(), Fail> {
    for twig in 0..9u8 {
        lay_twig(alloc, dev, twig)?;
    }
    Ok(())
}

// Three nodes over three twigs each, and the root over these.
fn lay_threes(alloc: Global, dev: &mut MemoryDevice) -> Result<(), Fail> {
    lay_over(alloc, dev, 30, 0, 3)?;
    lay_over(alloc, dev, 31, 3, 6)?;
    lay_over(alloc, dev, 32, 6, 9)?;
    let mut items = Vec::new(alloc);
    items.push(pointer(alloc, first_of(0), 30)?)?;
    items.push(pointer(alloc, first_of(3), 31)?)?;
    items.push(pointer(alloc, first_of(6), 32)?)?;
    lay(alloc, dev, 33, 4, items.as_slice())
}

// A root of this height.
fn rooted(at: u64, height: u8) -> Root {
    Root {
        id: NodeId(at),
        height,
    }
}

// The leaf of the stat data of what is in the root, where `/f` has so many bytes.
fn lay_stats(alloc: Global, dev: &mut MemoryDevice, size: u64) -> Result<(), Fail> {
    let mut items = Vec::new(alloc);
    for object in &OBJECTS {
        if object.dir == 42 {
            let object = resized(object, size);
            items.push(stat(alloc, object.stat_key(), &object.attr())?)?;
        }
    }
    lay(alloc, dev, 24, 1, items.as_slice())
}

// The object, of which `/f` has so many bytes.
fn resized(object: &Object, size: u64) -> Object {
    if object.oid == F.oid {
        Object { size, ..F }
    } else {
        *object
    }
}

// The pointers to what comes before `/f`.
fn before(alloc: Global) -> Result<Vec<Item>, Fail> {
    let mut items = Vec::new(alloc);
    items.push(pointer(alloc, least(), 23)?)?;
    items.push(pointer(alloc, STATS, 24)?)?;
    Ok(items)
}

// Adds what comes behind `/f`, in extents.
fn add_behind(alloc: Global, items: &mut Vec<Item>) -> Result<(), Fail> {
    items.push(pointer(alloc, G.byte(0), 27)?)?;
    items.push(extent(alloc, H.byte(0), &[(42, 1)])?)?;
    items.push(pointer(alloc, D.first_entry(), 29)?)?;
    Ok(())
}

// The first key of a leaf of the file.
fn start(leaf: u8) -> Key {
    F.byte(STEP * u64::from(leaf))
}

// Its block.
fn leaf_block(leaf: u8) -> u64 {
    34 + u64::from(leaf)
}

// The first key of one of the nine twigs.
fn first_of(twig: u8) -> Key {
    if twig == 0 {
        least()
    } else {
        start(twig.saturating_mul(2))
    }
}

// One of the nine twigs, over two leaves of the file, and what comes before or behind it.
fn lay_twig(alloc: Global, dev: &mut MemoryDevice, twig: u8) -> Result<(), Fail> {
    let mut items = if twig == 0 {
        before(alloc)?
    } else {
        Vec::new(alloc)
    };
    let leaf = twig.saturating_mul(2);
    let other = leaf.saturating_add(1);
    items.push(pointer(alloc, start(leaf), leaf_block(leaf))?)?;
    items.push(pointer(alloc, start(other), leaf_block(other))?)?;
    if twig == 8 {
        items.push(pointer(alloc, H.byte(0), 28)?)?;
        items.push(pointer(alloc, D.first_entry(), 29)?)?;
    }
    lay(alloc, dev, 52 + u64::from(twig), 2, items.as_slice())
}

// A node of level 3 over these of the nine twigs.
fn lay_over(alloc: Global, dev: &mut MemoryDevice, at: u64, from: u8, to: u8) -> Result<(), Fail> {
    let mut items = Vec::new(alloc);
    for twig in from..to {
        items.push(pointer(alloc, first_of(twig), 52 + u64::from(twig))?)?;
    }
    lay(alloc, dev, at, 3, items.as_slice())
}
