//! Cells: which nodes are read at a level and for a range, and the fault of each that is not.

ghost use Rattle.std.specs.Prelude.{◌≡◌, ◌&&◌, nat_le};

use crate::same::same_in;
use r4_base::{Block, CellFault, ExtentFault, Key, NodeFault, NodeId, Oid, StatFault, put64};
use r4_cell::{CellRefused, read_cell};
use r4_node40::NodeMut;
use std::alloc::Global;
use std::test::Fail;

// How many blocks the volume has.
const BLOCKS: u64 = 64;

// An item of the one file: the offset of its key, its plugin and how many bytes its body has.
#[derive(Clone, Copy)]
struct Item {
    from: u64,
    plugin: u16,
    len: u16,
}

// A node, and where it is read. All keys are those of one file; a range without `hi` has all from `lo` on.
struct Case {
    // The level in the node's head, or 0 for a block of zeros.
    made: u8,
    first: Item,
    second: Option<Item>,
    // The numbers that the first body begins with.
    body: [u64; 2],
    level: u8,
    lo: u64,
    hi: Option<u64>,
    fault: Option<CellFault>,
}

const STAT: Item = Item {
    from: 0,
    plugin: 0,
    len: 44,
};

const POINTER: Item = Item {
    from: 7,
    plugin: 3,
    len: 8,
};

const EXTENT: Item = Item {
    from: 0,
    plugin: 5,
    len: 16,
};

const TAIL: Item = Item {
    from: 100,
    plugin: 6,
    len: 10,
};

// A leaf with one tail, of which the range has just the bytes.
const LEAF: Case = Case {
    made: 1,
    first: TAIL,
    second: None,
    body: [0, 0],
    level: 1,
    lo: 100,
    hi: Some(110),
    fault: None,
};

// The leaf with a second tail, right behind the first.
const TWO: Case = Case {
    second: Some(Item { from: 110, ..TAIL }),
    hi: None,
    ..LEAF
};

// A leaf with a tail that ends at the last byte that a tail may have.
const LAST: Case = Case {
    first: Item {
        from: 16_374,
        ..TAIL
    },
    hi: None,
    ..LEAF
};

// A leaf with the stat data of a directory: the mask and the mode, and zeros.
const STATS: Case = Case {
    first: STAT,
    body: [0x41ed_0003, 0],
    lo: 0,
    hi: None,
    ..LEAF
};

// A twig with one pointer, to the last block.
const TWIG: Case = Case {
    made: 2,
    first: POINTER,
    body: [BLOCKS - 1, 0],
    level: 2,
    lo: 7,
    hi: None,
    ..LEAF
};

// A twig with an extent of one block, of which the range has just the bytes.
const RUN: Case = Case {
    first: EXTENT,
    body: [22, 1],
    lo: 0,
    hi: Some(4096),
    ..TWIG
};

// A twig with an extent of one block of zeros, the last that a file may have.
const END: Case = Case {
    first: Item {
        from: 0xffff_ffff_ffff_f000,
        ..EXTENT
    },
    body: [0, 1],
    lo: 0xffff_ffff_ffff_f000,
    hi: None,
    ..TWIG
};

static CASES: [Case; 24] = [
    LEAF,
    Case {
        hi: Some(109),
        fault: Some(CellFault::Range { item: 0 }),
        ..LEAF
    },
    Case {
        lo: 101,
        fault: Some(CellFault::Range { item: 0 }),
        ..LEAF
    },
    Case { lo: 0, ..LEAF },
    TWO,
    Case {
        second: Some(Item { from: 109, ..TAIL }),
        fault: Some(CellFault::Range { item: 0 }),
        ..TWO
    },
    Case {
        hi: Some(119),
        fault: Some(CellFault::Range { item: 1 }),
        ..TWO
    },
    Case {
        level: 2,
        fault: Some(CellFault::Level),
        ..LEAF
    },
    Case {
        made: 0,
        fault: Some(CellFault::Node(NodeFault::Magic)),
        ..LEAF
    },
    Case {
        made: 0,
        level: 0,
        ..LEAF
    },
    LAST,
    Case {
        first: Item {
            from: 16_375,
            ..TAIL
        },
        fault: Some(CellFault::Tail),
        ..LAST
    },
    Case {
        first: Item {
            from: 0xffff_ffff_ffff_fff7,
            ..TAIL
        },
        fault: Some(CellFault::Tail),
        ..LAST
    },
    STATS,
    Case {
        first: Item { len: 43, ..STAT },
        fault: Some(CellFault::Stat(StatFault::Length)),
        ..STATS
    },
    TWIG,
    Case {
        lo: 6,
        fault: Some(CellFault::Range { item: 0 }),
        ..TWIG
    },
    Case {
        body: [5, 0],
        fault: Some(CellFault::Pointer),
        ..TWIG
    },
    Case {
        body: [BLOCKS, 0],
        fault: Some(CellFault::Pointer),
        ..TWIG
    },
    RUN,
    Case {
        hi: Some(4095),
        fault: Some(CellFault::Range { item: 0 }),
        ..RUN
    },
    Case {
        body: [5, 1],
        fault: Some(CellFault::Extent(ExtentFault::Start(0))),
        ..RUN
    },
    END,
    Case {
        first: Item {
            from: 0xffff_ffff_ffff_f001,
            ..EXTENT
        },
        lo: 0xffff_ffff_ffff_f001,
        fault: Some(CellFault::Range { item: 0 }),
        ..END
    },
];

// The key of a byte of the file.
fn key(offset: u64) -> Key {
    Key::body(41, 0, Oid(42), offset)
}

// Lays the items of a case that is a node, but for the numbers of its first body.
fn lay(block: &mut Block, case: &Case) -> Result<(), Fail> {
    if case.made < 1 || case.made > 8 || !is_size(case.first.len) {
        return Err(Fail::from("there is no such node"));
    }
    let mut node = NodeMut::format(block, case.made, 0);
    let Ok(()) = node.insert(0, key(case.first.from), case.first.plugin, case.first.len) else {
        return Err(Fail::from("there is no room for an item"));
    };
    if let Some(item) = case.second {
        if !is_size(item.len) {
            return Err(Fail::from("there is no such item"));
        }
        let Ok(()) = node.insert(1, key(item.from), item.plugin, item.len) else {
            return Err(Fail::from("there is no room for two items"));
        };
    }
    Ok(())
}

// The block of a case.
fn block_of(alloc: Global, case: &Case) -> Result<Block, Fail> {
    let mut block = Block::zeroed(alloc)?;
    // The first body begins at byte 28; in a block of zeros there is none.
    if case.made > 0 {
        lay(&mut block, case)?;
        put64(block.bytes_mut(), 28, case.body[0]);
        put64(block.bytes_mut(), 36, case.body[1]);
    }
    Ok(block)
}

// Whether a body may have so many bytes.
fn is_size(len: u16) -> bool
    ensures { result ≡ (nat_le 1 len && nat_le len 4096) }
{
    len >= 1 && len <= 4096
}

// Why the block of a case is no cell, or nothing where it is one.
fn refusal(alloc: Global, case: &Case) -> Result<Option<CellRefused>, Fail> {
    let block = block_of(alloc, case)?;
    let hi = match case.hi {
        Some(offset) => key(offset),
        None => Key::body(41, 0, Oid(43), 0),
    };
    let lo = key(case.lo);
    Ok(read_cell(alloc, NodeId(23), case.level, lo, hi, BLOCKS, block).err())
}

#[test]
fn cells_are_read_or_refused(rt: HostRuntime) -> Result<(), Fail> {
    for (row, case) in CASES.iter().enumerate() {
        let wanted = case.fault.map(CellRefused::Fault);
        same_in(&rt, &refusal(rt.alloc(), case)?, &wanted, row);
    }
    Ok(())
}
