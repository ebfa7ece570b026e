//! The items of nodes.

ghost use Rattle.std.specs.Prelude.{◌<◌, ◌^◌};

use r4_base::{Attr, Key, Oid, Target};
use r4_cde::entry_key;
use r4_meta::write_stat;
use std::alloc::Global;
use std::test::Fail;

/// An item: its key, its plugin, and the bytes of its body (docs/layout.md, "Items").
#[derive(Drop)]
pub struct Item {
    pub key: Key,
    pub plugin: u16,
    pub body: Vec<u8>,
}

/// The stat data of an object.
pub fn stat(alloc: Global, key: Key, attr: &Attr) -> Result<Item, Fail> {
    let mut bytes = [0; 44];
    write_stat(&mut bytes, attr);
    let mut body = Vec::new(alloc);
    body.extend_from_slice(&bytes)?;
    Ok(Item {
        key,
        plugin: 0,
        body,
    })
}

/// So many equal bytes of a file, from the key's offset on.
pub fn tail(alloc: Global, key: Key, len: u16, byte: u8) -> Result<Item, Fail> {
    let body = vec![in alloc; byte; usize::from(len)]?;
    Ok(Item {
        key,
        plugin: 6,
        body,
    })
}

/// A pointer to the node in a block.
pub fn pointer(alloc: Global, key: Key, to: u64) -> Result<Item, Fail> {
    let mut body = Vec::new(alloc);
    body.extend_from_slice(&to.to_le_bytes())?;
    Ok(Item {
        key,
        plugin: 3,
        body,
    })
}

/// An extent of these units, each a first block and how many there are; a hole begins at block 0.
pub fn extent(alloc: Global, key: Key, units: &[(u64, u64)]) -> Result<Item, Fail> {
    let mut body = Vec::new(alloc);
    for (start, width) in units {
        body.extend_from_slice(&start.to_le_bytes())?;
        body.extend_from_slice(&width.to_le_bytes())?;
    }
    Ok(Item {
        key,
        plugin: 5,
        body,
    })
}

/// One entry of a directory.
///
/// # Errors
/// Where there is no memory, or the name is none.
pub fn entry(alloc: Global, dir: Oid, name: &[u8], target: &Target) -> Result<Item, Fail>
    requires { dir.0 < 2 ^ 60 }
{
    let Ok(key) = entry_key(dir, name) else {
        return Err(Fail::from("this is no name"));
    };
    let [_, ordering, oid, offset] = key.el;
    let mut body = Vec::new(alloc);
    body.extend_from_slice(&1u16.to_le_bytes())?;
    for number in [ordering, oid, offset] {
        body.extend_from_slice(&number.to_le_bytes())?;
    }
    body.extend_from_slice(&28u16.to_le_bytes())?;
    for number in [target.locality, target.ordering, target.oid.0] {
        body.extend_from_slice(&number.to_le_bytes())?;
    }
    if name.len() > 23 {
        body.extend_from_slice(name)?;
        body.push(0)?;
    }
    Ok(Item {
        key,
        plugin: 2,
        body,
    })
}
