//! A volume with directories and files, in trees of heights 2 to 4.
//!
//! The leaves and data blocks are the same at each height:
//!
//! | block | in tails | in extents |
//! |---|---|---|
//! | 23 | the root's stat data and entries | the same |
//! | 24 | stat data of all in the root | the same |
//! | 25 | bytes 0 to 3,999 of `/f` | |
//! | 26 | bytes 4,000 to 7,899 of `/f` | |
//! | 27 | the other bytes of `/f`, and `/g` | `/g` |
//! | 28 | `/h` | |
//! | 29 | `/d/x` with its entry; no byte is free | the same |
//! | 40, 41 | | the first and the last block of `/f`, between which is a hole |
//! | 42 | | `/h` |
//!
//! At height 2 the root is the twig 30. Else twig 22 stands over what comes before the last bytes
//! of `/f`, in extents before `/g`, and twig 30 over the rest; at height 3 the root is block 31. At
//! height 4 block 31 stands over twig 22, block 32 over twig 30, and the root is block 33.

use crate::items::{Item, entry, extent, pointer, stat, tail};
use crate::nodes::{empty_device, lay, lay_bytes};
use crate::objects::{D, F, G, H, OBJECTS, ROOT, ROOT_ENTRIES, X};
use r4_base::{Key, NodeId, Oid, Target};
use r4_cell::{Root, least};
use r4_outside::MemoryDevice;
use std::alloc::Global;
use std::test::Fail;

/// How the bytes of `/f` and `/h` stand in a volume; the others are tails in any case.
#[derive(Clone, Copy, Debug, PartialEq, Eq)]
pub enum Bodies {
    Tails,
    Extents,
}

// The least key of the stat data of what is in the root.
const STATS: Key = Key { el: [673, 0, 0, 0] };

// The root's leaf.
fn root_leaf(alloc: Global, dev: &mut MemoryDevice) -> Result<(), Fail> {
    let mut items = Vec::new(alloc);
    items.push(stat(alloc, least(), &ROOT.attr())?)?;
    for (name, letter, oid) in &ROOT_ENTRIES {
        let target = Target {
            locality: 42,
            ordering: u64::from(*letter) << 48,
            oid: Oid(u64::from(*oid)),
        };
        items.push(entry(alloc, Oid(42), name, &target)?)?;
    }
    lay(alloc, dev, 23, 1, items.as_slice())
}

// The leaf of the stat data of what is in the root.
fn stats_leaf(alloc: Global, dev: &mut MemoryDevice) -> Result<(), Fail> {
    let mut items = Vec::new(alloc);
    for object in &OBJECTS {
        if object.dir == 42 {
            items.push(stat(alloc, object.stat_key(), &object.attr())?)?;
        }
    }
    lay(alloc, dev, 24, 1, items.as_slice())
}

// The leaf of the file below the directory; no byte is free in it.
fn last_leaf(alloc: Global, dev: &mut MemoryDevice) -> Result<(), Fail> {
    let items = [
        entry(alloc, Oid(65_536), b"x", &X.target())?,
        stat(alloc, X.stat_key(), &X.attr())?,
        tail(alloc, X.byte(0), 3858, b'x')?,
    ];
    lay(alloc, dev, 29, 1, &items)
}

// The leaves of tails.
fn tails(alloc: Global, dev: &mut MemoryDevice) -> Result<(), Fail> {
    let first = [tail(alloc, F.byte(0), 4000, b'a')?];
    lay(alloc, dev, 25, 1, &first)?;
    let second = [
        tail(alloc, F.byte(4000), 96, b'a')?,
        tail(alloc, F.byte(4096), 3804, 0)?,
    ];
    lay(alloc, dev, 26, 1, &second)?;
    let third = [
        tail(alloc, F.byte(7900), 292, 0)?,
        tail(alloc, F.byte(8192), 808, b'b')?,
        tail(alloc, G.byte(0), 100, b'g')?,
    ];
    lay(alloc, dev, 27, 1, &third)?;
    let other = [tail(alloc, H.byte(0), 3000, b'c')?];
    lay(alloc, dev, 28, 1, &other)
}

// The data blocks, and the leaf between two extents.
fn blocks(alloc: Global, dev: &mut MemoryDevice) -> Result<(), Fail> {
    lay_bytes(alloc, dev, 40, b'a')?;
    lay_bytes(alloc, dev, 41, b'b')?;
    lay_bytes(alloc, dev, 42, b'c')?;
    let between = [tail(alloc, G.byte(0), 100, b'g')?];
    lay(alloc, dev, 27, 1, &between)
}

// The items of the left twig.
fn left(alloc: Global, bodies: Bodies) -> Result<Vec<Item>, Fail> {
    let mut items = Vec::new(alloc);
    items.push(pointer(alloc, least(), 23)?)?;
    items.push(pointer(alloc, STATS, 24)?)?;
    match bodies {
        Bodies::Tails => {
            items.push(pointer(alloc, F.byte(0), 25)?)?;
            items.push(pointer(alloc, F.byte(4000), 26)?)?;
        }
        Bodies::Extents => {
            items.push(extent(alloc, F.byte(0), &[(40, 1), (0, 1), (41, 1)])?)?;
        }
    }
    Ok(items)
}

// The first key of the right twig.
fn border(bodies: Bodies) -> Key {
    match bodies {
        Bodies::Tails => F.byte(7900),
        Bodies::Extents => G.byte(0),
    }
}

// Adds the items of the right twig.
fn add_right(alloc: Global, items: &mut Vec<Item>, bodies: Bodies) -> Result<(), Fail> {
    items.push(pointer(alloc, border(bodies), 27)?)?;
    items.push(match bodies {
        Bodies::Tails => pointer(alloc, H.byte(0), 28)?,
        Bodies::Extents => extent(alloc, H.byte(0), &[(42, 1)])?,
    })?;
    items.push(pointer(alloc, D.first_entry(), 29)?)?;
    Ok(())
}

// The nodes of a tree with two twigs; the root is the last one.
fn two_twigs(
    alloc: Global,
    dev: &mut MemoryDevice,
    bodies: Bodies,
    height: u8,
) -> Result<u64, Fail> {
    lay(alloc, dev, 22, 2, left(alloc, bodies)?.as_slice())?;
    let mut right = Vec::new(alloc);
    add_right(alloc, &mut right, bodies)?;
    lay(alloc, dev, 30, 2, right.as_slice())?;
    let low = pointer(alloc, least(), 22)?;
    let high = pointer(alloc, border(bodies), 30)?;
    if height == 3 {
        lay(alloc, dev, 31, 3, &[low, high])?;
        return Ok(31);
    }
    lay(alloc, dev, 31, 3, &[low])?;
    lay(alloc, dev, 32, 3, &[high])?;
    let low = pointer(alloc, least(), 31)?;
    let high = pointer(alloc, border(bodies), 32)?;
    lay(alloc, dev, 33, 4, &[low, high])?;
    Ok(33)
}

// The one twig of a tree of height 2.
fn one_twig(alloc: Global, dev: &mut MemoryDevice, bodies: Bodies) -> Result<u64, Fail> {
    let mut items = left(alloc, bodies)?;
    add_right(alloc, &mut items, bodies)?;
    lay(alloc, dev, 30, 2, items.as_slice())?;
    Ok(30)
}

/// The volume in a tree of height 2 or 3; for any other number the height is 4.
///
/// # Errors
/// Where there is no memory.
pub fn volume(alloc: Global, bodies: Bodies, height: u8) -> Result<(MemoryDevice, Root), Fail> {
    let mut dev = empty_device(alloc)?;
    root_leaf(alloc, &mut dev)?;
    stats_leaf(alloc, &mut dev)?;
    last_leaf(alloc, &mut dev)?;
    match bodies {
        Bodies::Tails => tails(alloc, &mut dev)?,
        Bodies::Extents => blocks(alloc, &mut dev)?,
    }
    let height = if height == 2 || height == 3 {
        height
    } else {
        4
    };
    let id = if height == 2 {
        one_twig(alloc, &mut dev, bodies)?
    } else {
        two_twigs(alloc, &mut dev, bodies, height)?
    };
    Ok((
        dev,
        Root {
            id: NodeId(id),
            height,
        },
    ))
}
