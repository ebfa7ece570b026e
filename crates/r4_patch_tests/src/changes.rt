//! Changes of a tree of height 3 with an extent: the cells and the root of two that are joined, and the node in which
//! two meet. The tree's root is node 22, over the twigs 23 and 24. Twig 23 has leaf 25 and an extent, twig 24 leaf 27.

ghost use Rattle.std.specs.Prelude.{◌≡◌, ◌&&◌, nat_le};

use crate::same::same_in;
use r4_base::{Block, Key, NodeId, put64};
use r4_cell::{Cell, Cells, Change, Root, new_cell, read_cell};
use r4_node40::NodeMut;
use r4_patch::{JoinFault, join};
use std::alloc::Global;
use std::process::Abort;
use std::sync::Arc;
use std::test::Fail;

// How many blocks the volume has.
const BLOCKS: u64 = 64;

// An item: its key, its plugin, how many bytes its body has, and the numbers that the body begins with.
#[derive(Clone, Copy)]
struct Item {
    key: Key,
    plugin: u16,
    len: u16,
    numbers: [u64; 2],
}

// A cell of one or two items; a data block, at level 0, has none of them and is zero.
#[derive(Clone, Copy)]
struct Made {
    id: u64,
    level: u8,
    lo: Key,
    hi: Key,
    first: Item,
    second: Option<Item>,
}

// The old cells and the new ones of a change, and the new root.
struct Edit {
    old: &'static [Made],
    new: &'static [Made],
    root: Option<Root>,
}

// The changes of the table.
#[derive(Clone, Copy)]
enum Which {
    Link,
    Split,
    Lengthen,
    Write,
    Grow,
}

// Two changes; and the node in which they meet, or the names of the old and of the new cells, and the root.
struct Case {
    one: Which,
    two: Which,
    meet: Option<u64>,
    old: &'static [u64],
    new: &'static [u64],
    root: Option<Root>,
}

// The stat data of the root directory.
const LEAST: Key = Key {
    el: [657, 0, 42, 0],
};

// The first byte of a file in an extent, the first byte of its second block, and of the block behind.
const EXTENT: Key = Key {
    el: [676, 0, 70_000, 0],
};

const SECOND: Key = Key {
    el: [676, 0, 70_000, 4096],
};

const THIRD: Key = Key {
    el: [676, 0, 70_000, 8192],
};

// The first byte of a file in a tail, and of the file behind it.
const TAIL: Key = Key {
    el: [676, 0, 70_001, 0],
};

const LATE: Key = Key {
    el: [676, 0, 70_002, 0],
};

const TOP: Key = Key { el: [u64::MAX; 4] };

// A pointer at a key, to a block.
const TO_23: Item = Item {
    key: LEAST,
    plugin: 3,
    len: 8,
    numbers: [23, 0],
};

const TO_24: Item = Item {
    key: TAIL,
    numbers: [24, 0],
    ..TO_23
};

const TO_27: Item = Item {
    key: TAIL,
    numbers: [27, 0],
    ..TO_23
};

const ROOT: Made = Made {
    id: 22,
    level: 3,
    lo: LEAST,
    hi: TOP,
    first: TO_23,
    second: Some(TO_24),
};

// A root over the root.
const HIGH: Made = Made {
    id: 40,
    level: 4,
    first: Item {
        numbers: [22, 0],
        ..TO_23
    },
    second: None,
    ..ROOT
};

// An extent of one block, 30.
const RUN: Item = Item {
    key: EXTENT,
    plugin: 5,
    len: 16,
    numbers: [30, 1],
};

const LEFT: Made = Made {
    id: 23,
    level: 2,
    hi: TAIL,
    first: Item {
        numbers: [25, 0],
        ..TO_23
    },
    second: Some(RUN),
    ..ROOT
};

// The twig whose extent has a second block, 31.
const LEFT_LONGER: Made = Made {
    second: Some(Item {
        numbers: [30, 2],
        ..RUN
    }),
    ..LEFT
};

const RIGHT: Made = Made {
    id: 24,
    level: 2,
    lo: TAIL,
    first: TO_27,
    second: None,
    ..ROOT
};

// The twig with a pointer to a second leaf.
const RIGHT_FULLER: Made = Made {
    second: Some(Item {
        key: LATE,
        numbers: [28, 0],
        ..TO_23
    }),
    ..RIGHT
};

// The stat data of the root directory: the mask, the mode and 2 links, and zeros.
const STAT: Item = Item {
    key: LEAST,
    plugin: 0,
    len: 44,
    numbers: [0x0000_0002_41ed_0003, 0],
};

const STATS: Made = Made {
    id: 25,
    level: 1,
    hi: EXTENT,
    first: STAT,
    second: None,
    ..ROOT
};

// The leaf with one link more.
const STATS_LINKED: Made = Made {
    first: Item {
        numbers: [0x0000_0003_41ed_0003, 0],
        ..STAT
    },
    ..STATS
};

// The leaf with two tails.
const TAILS: Made = Made {
    id: 27,
    level: 1,
    lo: TAIL,
    first: Item {
        key: TAIL,
        plugin: 6,
        len: 10,
        numbers: [7, 0],
    },
    second: Some(Item {
        key: LATE,
        plugin: 6,
        len: 20,
        numbers: [8, 9],
    }),
    ..ROOT
};

// The leaf with the first tail alone, and one with the second.
const TAILS_FIRST: Made = Made {
    hi: LATE,
    second: None,
    ..TAILS
};

const TAILS_SECOND: Made = Made {
    id: 28,
    lo: LATE,
    first: Item {
        key: LATE,
        plugin: 6,
        len: 20,
        numbers: [8, 9],
    },
    second: None,
    ..TAILS
};

// The extent's first block, and its second.
const DATA: Made = Made {
    id: 30,
    level: 0,
    lo: EXTENT,
    hi: SECOND,
    ..ROOT
};

const DATA_SECOND: Made = Made {
    id: 31,
    lo: SECOND,
    hi: THIRD,
    ..DATA
};

const NEW_ROOT: Root = Root {
    id: NodeId(40),
    height: 4,
};

// One link more.
static LINK: Edit = Edit {
    old: &[STATS],
    new: &[STATS_LINKED],
    root: None,
};

// The leaf of two tails becomes two.
static SPLIT: Edit = Edit {
    old: &[RIGHT, TAILS],
    new: &[RIGHT_FULLER, TAILS_FIRST, TAILS_SECOND],
    root: None,
};

// The extent gets a second block.
static LENGTHEN: Edit = Edit {
    old: &[LEFT],
    new: &[LEFT_LONGER, DATA_SECOND],
    root: None,
};

// The extent's block is written anew.
static WRITE: Edit = Edit {
    old: &[DATA, LEFT],
    new: &[DATA, LEFT],
    root: None,
};

// A root over the root.
static GROW: Edit = Edit {
    old: &[ROOT],
    new: &[ROOT, HIGH],
    root: Some(NEW_ROOT),
};

// Two changes that are joined; each case says the rest.
const JOINED: Case = Case {
    one: Which::Link,
    two: Which::Split,
    meet: None,
    old: &[25, 24, 27],
    new: &[24, 27, 28, 25],
    root: None,
};

// Two changes that meet in a node.
const MEET: Case = Case {
    old: &[],
    new: &[],
    ..JOINED
};

static CASES: [Case; 9] = [
    JOINED,
    Case {
        one: Which::Split,
        two: Which::Link,
        old: &[24, 27, 25],
        new: &[25, 24, 27, 28],
        ..JOINED
    },
    Case {
        one: Which::Split,
        two: Which::Lengthen,
        old: &[24, 27, 23],
        new: &[23, 31, 24, 27, 28],
        ..JOINED
    },
    Case {
        one: Which::Write,
        two: Which::Link,
        old: &[30, 23, 25],
        new: &[25, 30, 23],
        ..JOINED
    },
    Case {
        one: Which::Grow,
        two: Which::Write,
        old: &[22, 30, 23],
        new: &[30, 23, 22, 40],
        root: Some(NEW_ROOT),
        ..JOINED
    },
    Case {
        one: Which::Lengthen,
        two: Which::Grow,
        old: &[23, 22],
        new: &[22, 40, 23, 31],
        root: Some(NEW_ROOT),
        ..JOINED
    },
    Case {
        one: Which::Write,
        two: Which::Lengthen,
        meet: Some(23),
        ..MEET
    },
    Case {
        one: Which::Split,
        two: Which::Split,
        meet: Some(24),
        ..MEET
    },
    Case {
        one: Which::Grow,
        two: Which::Grow,
        meet: Some(22),
        ..MEET
    },
];

fn edit_of(which: Which) -> &'static Edit {
    match which {
        Which::Link => &LINK,
        Which::Split => &SPLIT,
        Which::Lengthen => &LENGTHEN,
        Which::Write => &WRITE,
        Which::Grow => &GROW,
    }
}

// Whether a body of so many bytes has a place in the tests' nodes.
fn is_size(len: u16) -> bool
    ensures { result ≡ (nat_le 1 len && nat_le len 1000) }
{
    len >= 1 && len <= 1000
}

// Lays the items of a node, without what their bodies begin with.
fn lay(block: &mut Block, made: &Made) -> Result<(), Fail> {
    if made.level < 1 || made.level > 8 || !is_size(made.first.len) {
        return Err(Fail::from("there is no such node"));
    }
    let mut node = NodeMut::format(block, made.level, 0);
    let Ok(()) = node.insert(0, made.first.key, made.first.plugin, made.first.len) else {
        return Err(Fail::from("there is no room for an item"));
    };
    if let Some(item) = made.second {
        if !is_size(item.len) {
            return Err(Fail::from("there is no such item"));
        }
        let Ok(()) = node.insert(1, item.key, item.plugin, item.len) else {
            return Err(Fail::from("there is no room for two items"));
        };
    }
    Ok(())
}

// Writes what the bodies begin with. The first one begins at byte 28, and the second behind it.
fn put_numbers(block: &mut Block, made: &Made) -> Result<(), Fail> {
    let bytes = block.bytes_mut();
    put64(bytes, 28, made.first.numbers[0]);
    put64(bytes, 36, made.first.numbers[1]);
    if let Some(item) = made.second {
        if !is_size(made.first.len) {
            return Err(Fail::from("there is no such item"));
        }
        let at = 28 + made.first.len as usize;
        put64(bytes, at, item.numbers[0]);
        put64(bytes, at + 8, item.numbers[1]);
    }
    Ok(())
}

// The block of a cell.
fn block_of(alloc: Global, made: &Made) -> Result<Block, Fail> {
    let mut block = Block::zeroed(alloc)?;
    if made.level > 0 {
        lay(&mut block, made)?;
        put_numbers(&mut block, made)?;
    }
    Ok(block)
}

// The cell, made in memory. A node is read first, so that it is known to stand there; a data block may have any bytes.
fn cell_of(alloc: Global, made: &Made) -> Result<Arc<Cell>, Fail> {
    let id = NodeId(made.id);
    let block = block_of(alloc, made)?;
    if made.level == 0 {
        return Ok(new_cell(alloc, id, 0, made.lo, made.hi, block)?);
    }
    let Ok(read) = read_cell(alloc, id, made.level, made.lo, made.hi, BLOCKS, block) else {
        return Err(Fail::from("a node of the table is refused"));
    };
    let block = read.block().copy(alloc)?;
    Ok(new_cell(alloc, id, made.level, made.lo, made.hi, block)?)
}

// The cells of a change.
fn cells_of(alloc: Global, all: &[Made]) -> Result<Cells, Fail> {
    let mut cells = Vec::new(alloc);
    for made in all {
        cells.push(cell_of(alloc, made)?)?;
    }
    Ok(Cells::from_vec(cells))
}

fn change_of(alloc: Global, edit: &Edit) -> Result<Change, Fail> {
    Ok(Change {
        old: cells_of(alloc, edit.old)?,
        new: cells_of(alloc, edit.new)?,
        root: edit.root,
    })
}

// The names of cells, in their order.
fn ids_of(alloc: Global, cells: &Cells) -> Result<Vec<u64>, Fail> {
    let mut ids = Vec::new(alloc);
    for cell in cells.as_slice() {
        ids.push(cell.id().0)?;
    }
    Ok(ids)
}

// Looks at a change that two are joined to.
fn look_at_joined<X: Abort>(
    rt: &X,
    alloc: Global,
    change: &Change,
    case: &Case,
    row: usize,
) -> Result<(), Fail> {
    let old = ids_of(alloc, &change.old)?;
    let new = ids_of(alloc, &change.new)?;
    same_in(rt, &None, &case.meet, row);
    same_in(rt, &old.as_slice(), &case.old, row);
    same_in(rt, &new.as_slice(), &case.new, row);
    same_in(rt, &change.root, &case.root, row);
    Ok(())
}

// Looks at what two changes are joined to, in a row of the table.
fn look<X: Abort>(rt: &X, alloc: Global, case: &Case, row: usize) -> Result<(), Fail> {
    let one = change_of(alloc, edit_of(case.one))?;
    let two = change_of(alloc, edit_of(case.two))?;
    look_at_both(rt, alloc, &one, &two, case, row)
}

// The same of these two.
fn look_at_both<X: Abort>(
    rt: &X,
    alloc: Global,
    one: &Change,
    two: &Change,
    case: &Case,
    row: usize,
) -> Result<(), Fail> {
    match join(alloc, one, two) {
        Ok(change) => look_at_joined(rt, alloc, &change, case, row),
        Err(JoinFault::Meet { node }) => {
            same_in(rt, &Some(node.0), &case.meet, row);
            Ok(())
        }
        Err(JoinFault::Memory) => Err(Fail::from("there is no memory")),
    }
}

#[test]
fn changes_of_a_tree_are_joined(rt: HostRuntime) -> Result<(), Fail> {
    for (row, case) in CASES.iter().enumerate() {
        look(&rt, rt.alloc(), case, row)?;
    }
    Ok(())
}

static MADE: [Made; 4] = [TAILS, LEFT_LONGER, DATA, DATA_SECOND];

#[test]
fn cells_are_what_they_were_made_of(rt: HostRuntime) -> Result<(), Fail> {
    for (row, made) in MADE.iter().enumerate() {
        let cell = cell_of(rt.alloc(), made)?;
        let block = block_of(rt.alloc(), made)?;
        same_in(&rt, &cell.id(), &NodeId(made.id), row);
        same_in(&rt, &cell.level(), &made.level, row);
        same_in(&rt, &cell.lo(), &made.lo, row);
        same_in(&rt, &cell.hi(), &made.hi, row);
        same_in(&rt, &cell.block().bytes(), &block.bytes(), row);
    }
    Ok(())
}
