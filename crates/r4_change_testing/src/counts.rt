//! What stands at the keys of a volume.

use crate::volumes::Volume;
use r4_base::Value;
use r4_buffer::{Buffer, Reading};
use r4_cell::{Root, least, top};
use r4_content::{Interval, Seen, SeenPart};
use r4_gather::Sight;
use r4_outside::{Device, MemoryDevice};
use r4_search::Keeping;
use r4_seeing::Seeing;
use r4_tree_testing::BLOCKS;
use std::alloc::{AllocError, Global};
use std::test::Fail;

// How many values of each kind there are.
#[derive(Clone, Copy)]
struct Counts {
    attributes: u64,
    entries: u64,
    bytes: u64,
}

impl Counts {
    // One part more.
    fn with(self, part: &SeenPart) -> Counts {
        let Counts {
            attributes,
            entries,
            bytes,
        } = self;
        match part {
            SeenPart::Run(run) => Counts {
                bytes: bytes.saturating_add(run.bytes.as_slice().len() as u64),
                ..self
            },
            SeenPart::One { value, .. } => match value {
                Value::Attr(_) => Counts {
                    attributes: attributes.saturating_add(1),
                    ..self
                },
                Value::Entry(_, _) => Counts {
                    entries: entries.saturating_add(1),
                    ..self
                },
                Value::Byte(_) => Counts {
                    bytes: bytes.saturating_add(1),
                    ..self
                },
            },
        }
    }

    // As words.
    fn words(self, alloc: Global) -> Result<String, AllocError> {
        let Counts {
            attributes,
            entries,
            bytes,
        } = self;
        format!(in alloc; "{attributes} attributes, {entries} entries, {bytes} bytes")
    }
}

/// How many values stand at all keys of a volume, whether a path leads there or not, as in
/// `9 attributes, 10 entries, 15958 bytes`.
///
/// # Errors
/// Where there is no memory, or the tree is damaged.
pub fn standing(alloc: Global, volume: &mut Volume) -> Result<String, Fail> {
    let root = volume.root;
    let seen = all_seen(alloc, &mut volume.dev, root)?;
    let mut counts = Counts {
        attributes: 0,
        entries: 0,
        bytes: 0,
    };
    for part in &seen.parts {
        counts = counts.with(part);
    }
    Ok(counts.words(alloc)?)
}

// What stands at all keys of the tree on a device.
fn all_seen(alloc: Global, dev: &mut MemoryDevice, root: Root) -> Result<Seen, Fail> {
    if dev.blocks()? != BLOCKS || root.id.0 >= BLOCKS || root.height < 2 {
        return Err(Fail::from("the root is not on the device"));
    }
    let buffer = Buffer::new(alloc);
    let pool = Keeping::all(alloc, Reading::new(dev, &buffer, root, BLOCKS));
    let mut sight = Seeing::new(alloc, pool, root);
    let from = least();
    let looked = sight.see_all(alloc, Interval { from, to: top() });
    let (pool, seen, _) = sight.into_parts();
    let _ = pool.into_pool().into_device();
    match looked {
        Ok(()) => Ok(seen),
        Err(_) => Err(Fail::from("the tree is damaged")),
    }
}
