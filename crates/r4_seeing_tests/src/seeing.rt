//! What is seen, and what is read for it.

use r4_base::{BlockNo, CellFault, Key, NodeId, Oid};
use r4_buffer::{Buffer, Reading};
use r4_cell::{Root, least};
use r4_content::{Interval, Seen, SeenPart};
use r4_gather::Sight;
use r4_outside::{Device, MemoryDevice};
use r4_search::{FetchFault, Keeping};
use r4_seeing::Seeing;
use r4_tree_testing::{
    BLOCKS, Bodies, Counting, ROOT, empty_device, extent, lay, pointer, stat, volume,
};
use std::alloc::Global;
use std::process::Abort;
use std::test::Fail;

// What was looked at, how that ended, and how a look at the root directory did then; the lengths of
// the runs of bytes that were seen, 0 for each value that is no run; and which blocks were read.
#[derive(Drop)]
struct Looked {
    bytes: Result<(), FetchFault>,
    root: Result<(), FetchFault>,
    lengths: Vec<usize>,
    reads: Vec<u64>,
}

// What a test wants.
#[derive(Drop)]
struct Wanted<'a> {
    end: Result<(), FetchFault>,
    lengths: &'a [usize],
    reads: &'a [u64],
}

// The key of a byte of the object that the extent is of.
fn byte(offset: u64) -> Key {
    Key::body(42, 0, Oid(65536), offset)
}

// The root directory in leaf 23, and a twig with an extent: blocks 25 and 26, a hole, and block 25
// again.
fn with_extent(alloc: Global) -> Result<(MemoryDevice, Root), Fail> {
    let mut device = empty_device(alloc)?;
    let leaf = [stat(alloc, least(), &ROOT.attr())?];
    lay(alloc, &mut device, 23, 1, &leaf)?;
    let twig = [
        pointer(alloc, least(), 23)?,
        extent(alloc, byte(0), &[(25, 2), (0, 1), (25, 1)])?,
    ];
    lay(alloc, &mut device, 22, 2, &twig)?;
    let id = NodeId(22);
    Ok((device, Root { id, height: 2 }))
}

// Looks at the root directory twice, and at all its entries.
fn see_root<S: Sight>(alloc: Global, sight: &mut S) -> Result<(), FetchFault> {
    let root = Key::stat(41, 0, Oid(42));
    sight.see(alloc, root)?;
    sight.see(alloc, root)?;
    sight.see_all(
        alloc,
        Interval {
            from: Key { el: [672, 0, 0, 0] },
            to: Key { el: [673, 0, 0, 0] },
        },
    )
}

// Looks at the bytes of each pair, from one on up to the other.
fn see_bytes<S: Sight>(
    alloc: Global,
    sight: &mut S,
    pairs: &[(u64, u64)],
) -> Result<(), FetchFault> {
    for (from, to) in pairs {
        let within = Interval {
            from: byte(*from),
            to: byte(*to),
        };
        sight.see_all(alloc, within)?;
    }
    Ok(())
}

// How many bytes each run has that was seen; 0 for a value that is no run.
fn lengths(alloc: Global, seen: &Seen) -> Result<Vec<usize>, Fail> {
    let mut lengths = Vec::new(alloc);
    for part in &seen.parts {
        lengths.push(match part {
            SeenPart::One { key: _, value: _ } => 0,
            SeenPart::Run(run) => run.bytes.as_slice().len(),
        })?;
    }
    Ok(lengths)
}

// Looks at bytes, and at the root directory.
fn look(alloc: Global, tree: (MemoryDevice, Root), pairs: &[(u64, u64)]) -> Result<Looked, Fail> {
    let (device, root) = tree;
    let mut dev = Counting::new(alloc, device);
    if dev.blocks()? != BLOCKS || root.id.0 >= BLOCKS || root.height < 2 {
        return Err(Fail::from("the root is not on the device"));
    }
    let buffer = Buffer::new(alloc);
    let pool = Keeping::all(alloc, Reading::new(&mut dev, &buffer, root, BLOCKS));
    let mut sight = Seeing::new(alloc, pool, root);
    let bytes = see_bytes(alloc, &mut sight, pairs);
    let found = see_root(alloc, &mut sight);
    let (pool, seen, _) = sight.into_parts();
    let _ = pool.into_pool().into_device();
    Ok(Looked {
        bytes,
        root: found,
        lengths: lengths(alloc, &seen)?,
        reads: dev.reads,
    })
}

// Ends the test unless this was seen, and no block was read but these, each once.
fn looks<X: Abort>(rt: &X, looked: &Looked, wanted: &Wanted<'_>) {
    assert_eq!(rt; looked.bytes, wanted.end, "looking at bytes");
    assert_eq!(rt; looked.root, wanted.end, "looking at the root directory");
    assert_eq!(rt; looked.lengths.as_slice(), wanted.lengths, "what was seen");
    assert_eq!(rt; looked.reads.as_slice(), wanted.reads, "reads");
}

#[test]
fn a_volume_is_read_once(rt: HostRuntime) -> Result<(), Fail> {
    let alloc = rt.alloc();
    let looked = look(alloc, volume(alloc, Bodies::Tails, 4)?, &[])?;
    let wanted = Wanted {
        end: Ok(()),
        lengths: &[0; 10],
        reads: &[33, 31, 22, 23],
    };
    looks(&rt, &looked, &wanted);
    Ok(())
}

#[test]
fn blocks_and_holes_are_seen_in_order(rt: HostRuntime) -> Result<(), Fail> {
    let alloc = rt.alloc();
    let looked = look(alloc, with_extent(alloc)?, &[(4000, 9000), (0, 9000)])?;
    let wanted = Wanted {
        end: Ok(()),
        lengths: &[0, 4000, 96, 4096, 808],
        reads: &[22, 25, 26, 23],
    };
    looks(&rt, &looked, &wanted);
    Ok(())
}

#[test]
fn a_block_that_is_met_twice_is_damage(rt: HostRuntime) -> Result<(), Fail> {
    let alloc = rt.alloc();
    let looked = look(alloc, with_extent(alloc)?, &[(0, 16384)])?;
    let damaged = FetchFault::Damaged {
        block: BlockNo(25),
        fault: CellFault::Range { item: 0 },
    };
    let wanted = Wanted {
        end: Err(damaged),
        lengths: &[4096, 4096, 4096],
        reads: &[22, 25, 26],
    };
    looks(&rt, &looked, &wanted);
    Ok(())
}
