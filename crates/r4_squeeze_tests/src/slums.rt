//! Slums of small trees.

use crate::nodes::{Item, Put, cell, cell_of, text_of};
use r4_base::{Key, Memory, Oid};
use r4_cell::Cell;
use r4_edit_testing::{entries, name_key};
use r4_squeeze::{is_slum, squeeze};
use std::alloc::Global;
use std::process::Abort;
use std::sync::Arc;
use std::test::Fail;

/// The directory whose names stand in leaves.
const DIRECTORY: Oid = Oid(50);

// What the new cells of a squeeze are, the one above the slum last.
fn squeezed(alloc: Global, slum: &[Arc<Cell>], parent: &Arc<Cell>) -> Result<String, Fail> {
    if !is_slum(slum, parent) {
        return Err(Fail::from("no slum"));
    }
    let change = squeeze(alloc, slum, parent)?;
    text_of(alloc, change.new.as_slice())
}

/// A slum: its level, its cells, with their numbers, ranges and items; the range and the items of the cell above; and what
/// comes in their place.
struct Row {
    name: &'static str,
    level: u8,
    slum: &'static [(u64, (u64, u64), &'static [Put])],
    above: (u64, u64),
    items: &'static [Put],
    told: &'static str,
}

static ROWS: [Row; 6] = [
    Row {
        name: "tails that meet, a gap, and an empty leaf between",
        level: 1,
        slum: &[
            (31, (1000, 2000), &[Put::Tail(1000, 1000)]),
            (32, (2000, 4000), &[Put::Tail(2000, 2000)]),
            (33, (4000, 4500), &[]),
            (34, (4500, 10000), &[Put::Tail(4500, 1500)]),
        ],
        above: (0, 20000),
        items: &[
            Put::To(0, 30),
            Put::To(1000, 31),
            Put::To(2000, 32),
            Put::To(4000, 33),
            Put::To(4500, 34),
            Put::To(10000, 35),
        ],
        told: "\
31 1000..5492: 1000+3000 4500+992\n\
32 5492..10000: 5492+508\n\
22 0..20000: 0>30 1000>31 5492>32 10000>35\n",
    },
    Row {
        name: "leaves that have nothing at both ends, beside an extent",
        level: 1,
        slum: &[
            (31, (4096, 5000), &[]),
            (32, (5000, 6000), &[Put::Tail(5500, 2)]),
            (33, (6000, 8192), &[]),
        ],
        above: (0, 20000),
        items: &[
            Put::Extent(0, 50, 1),
            Put::To(4096, 31),
            Put::To(5000, 32),
            Put::To(6000, 33),
            Put::Extent(8192, 60, 1),
        ],
        told: "31 4096..8192: 5500+2\n22 0..20000: 0+16 4096>31 8192+16\n",
    },
    Row {
        name: "leaves that are full",
        level: 1,
        slum: &[
            (31, (0, 4030), &[Put::Tail(0, 4030)]),
            (32, (4030, 8060), &[Put::Tail(4030, 4030)]),
        ],
        above: (0, 9000),
        items: &[Put::To(0, 31), Put::To(4030, 32), Put::To(8060, 33)],
        told: "31 0..4030: 0+4030\n32 4030..8060: 4030+4030\n22 0..9000: 0>31 4030>32 8060>33\n",
    },
    Row {
        name: "one leaf",
        level: 1,
        slum: &[(31, (0, 5000), &[Put::Tail(0, 10), Put::Tail(10, 20)])],
        above: (0, 9000),
        items: &[Put::To(0, 31), Put::To(5000, 32)],
        told: "31 0..5000: 0+30\n22 0..9000: 0>31 5000>32\n",
    },
    Row {
        name: "twigs whose extents continue each other",
        level: 2,
        slum: &[
            (31, (0, 8192), &[Put::Extent(0, 50, 2)]),
            (
                32,
                (8192, 20000),
                &[Put::Extent(8192, 60, 1), Put::To(12288, 40)],
            ),
        ],
        above: (0, 40000),
        items: &[Put::To(0, 31), Put::To(8192, 32), Put::To(20000, 33)],
        told: "31 0..20000: 0+32 12288>40\n22 0..40000: 0>31 20000>33\n",
    },
    Row {
        name: "nodes of level 3",
        level: 3,
        slum: &[
            (31, (0, 1000), &[Put::To(0, 41), Put::To(500, 42)]),
            (32, (1000, 2000), &[Put::To(1000, 43)]),
            (33, (2000, 3000), &[Put::To(2000, 44), Put::To(2500, 45)]),
        ],
        above: (0, 9000),
        items: &[
            Put::To(0, 31),
            Put::To(1000, 32),
            Put::To(2000, 33),
            Put::To(3000, 34),
        ],
        told: "31 0..3000: 0>41 500>42 1000>43 2000>44 2500>45\n22 0..9000: 0>31 3000>34\n",
    },
];

// A row is as it says.
fn holds(alloc: Global, row: &Row) -> Result<bool, Fail> {
    let slum = slum_of(alloc, row)?;
    let parent = cell(alloc, 22, row.level.wrapping_add(1), row.above, row.items)?;
    let told = squeezed(alloc, slum.as_slice(), &parent)?;
    Ok(told.as_str() == row.told)
}

// The slum of a row.
fn slum_of(alloc: Global, row: &Row) -> Result<Vec<Arc<Cell>>, Fail> {
    let mut slum = Vec::new(alloc);
    for (id, range, items) in row.slum {
        slum.push(cell(alloc, *id, row.level, *range, items)?)?;
    }
    Ok(slum)
}

#[test]
fn slums_are_packed_to_the_left(rt: HostRuntime) -> Result<(), Fail> {
    for row in &ROWS {
        assert!(&rt; holds(rt.alloc(), row)?, "{}", row.name);
    }
    Ok(())
}

// How many items each of the cells has that come in the place of a slum, and where each begins.
fn counted(alloc: Global, slum: &[Arc<Cell>], parent: &Arc<Cell>) -> Result<Vec<(u64, u16)>, Fail> {
    if !is_slum(slum, parent) {
        return Err(Fail::from("no slum"));
    }
    let change = squeeze(alloc, slum, parent)?;
    counts_of(alloc, change.new.as_slice())
}

// How many items each of the cells has, and where each begins.
fn counts_of(alloc: Global, cells: &[Arc<Cell>]) -> Result<Vec<(u64, u16)>, Fail> {
    let mut counts = Vec::new(alloc);
    for cell in cells {
        counts.push((cell.lo().el[3], count_of(cell)?))?;
    }
    Ok(counts)
}

// How many items a node has.
fn count_of(cell: &Cell) -> Result<u16, Fail> {
    if cell.level() == 0 {
        return Err(Fail::from("no node"));
    }
    Ok(cell.node().len())
}

// Forty nodes with 400 keys each, of which each has these items at the beginning of its range; packed.
fn forty(alloc: Global, level: u8, items: &[Put]) -> Result<Vec<(u64, u16)>, Fail> {
    let slum = forty_nodes(alloc, level, items)?;
    let parent = over_forty(alloc, level.wrapping_add(1))?;
    counted(alloc, slum.as_slice(), &parent)
}

// The forty nodes.
fn forty_nodes(alloc: Global, level: u8, items: &[Put]) -> Result<Vec<Arc<Cell>>, Fail> {
    let mut nodes = Vec::new(alloc);
    for node in 0..40u32 {
        nodes.push(one_of_forty(alloc, level, items, u64::from(node))?)?;
    }
    Ok(nodes)
}

// One of the forty nodes, counted from 0.
fn one_of_forty(alloc: Global, level: u8, items: &[Put], node: u64) -> Result<Arc<Cell>, Fail> {
    let from = node.wrapping_mul(400);
    let moved = moved(alloc, items, from)?;
    let range = (from, from.wrapping_add(400));
    cell(
        alloc,
        node.wrapping_add(100),
        level,
        range,
        moved.as_slice(),
    )
}

// The items, so much farther on.
fn moved(alloc: Global, items: &[Put], by: u64) -> Result<Vec<Put>, Memory> {
    let mut moved = Vec::new(alloc);
    for item in items {
        moved.push(item.behind(by))?;
    }
    Ok(moved)
}

// The cell above the forty nodes.
fn over_forty(alloc: Global, level: u8) -> Result<Arc<Cell>, Fail> {
    let mut items = Vec::new(alloc);
    for node in 0..40u32 {
        let node = u64::from(node);
        items.push(Put::To(400 * node, 100 + node))?;
    }
    cell(alloc, 22, level, (0, 16000), items.as_slice())
}

// Ends the test unless the cells are these.
fn same_counts<X: Abort>(rt: &X, got: &[(u64, u16)], want: &[(u64, u16)]) {
    assert_eq!(rt; got, want);
}

#[test]
fn nodes_are_filled(rt: HostRuntime) -> Result<(), Fail> {
    let items = [
        Put::To(0, 1000),
        Put::To(1, 1001),
        Put::To(2, 1002),
        Put::To(3, 1003),
        Put::To(4, 1004),
    ];
    let counts = forty(rt.alloc(), 3, &items)?;
    let told = [(0u64, 88u16), (6803, 88), (14001, 24), (0, 3)];
    same_counts(&rt, counts.as_slice(), told.as_slice());
    Ok(())
}

#[test]
fn leaves_are_filled(rt: HostRuntime) -> Result<(), Fail> {
    let counts = forty(rt.alloc(), 1, &[Put::Tail(0, 400)])?;
    let told = [(0u64, 1u16), (4030, 1), (8060, 1), (12090, 1), (0, 4)];
    same_counts(&rt, counts.as_slice(), told.as_slice());
    Ok(())
}

#[test]
fn leaves_with_gaps_are_filled(rt: HostRuntime) -> Result<(), Fail> {
    let counts = forty(rt.alloc(), 1, &[Put::Tail(0, 150), Put::Tail(200, 150)])?;
    let told = [(0u64, 22u16), (4282, 22), (8600, 22), (12882, 16), (0, 4)];
    same_counts(&rt, counts.as_slice(), told.as_slice());
    Ok(())
}

// A leaf from one name of a directory up to a key, with some of its names in one item.
fn names(alloc: Global, id: u64, letters: &[u8], hi: Key) -> Result<Arc<Cell>, Fail> {
    let Some(first) = letters.first() else {
        return Err(Fail::from("no letters"));
    };
    let lo = name_key(DIRECTORY, *first, 1)?;
    let items = item_of_names(alloc, lo, letters)?;
    cell_of(alloc, id, 1, (lo, hi), items.as_slice())
}

// One item of names, whose first one has this key.
fn item_of_names(alloc: Global, key: Key, letters: &[u8]) -> Result<Vec<Item>, Fail> {
    let body = entries(alloc, DIRECTORY, letters, 1)?;
    let mut items = Vec::new(alloc);
    items.push(Item {
        key,
        plugin: 2,
        body,
    })?;
    Ok(items)
}

// A pointer from the key of a name on.
fn to(alloc: Global, letter: u8, id: u64) -> Result<Item, Fail> {
    let key = name_key(DIRECTORY, letter, 1)?;
    let body = Vec::from_slice(alloc, &id.to_le_bytes())?;
    Ok(Item {
        key,
        plugin: 3,
        body,
    })
}

// The leaves of entries of one directory: the number, the letters of the names, and the first name behind them.
static NAMES: [(u64, &[u8], u8); 3] = [(31, b"012", b'3'), (32, b"3", b'4'), (33, b"45", b'9')];

// Three leaves with entries of one directory.
fn leaves_of_names(alloc: Global) -> Result<Vec<Arc<Cell>>, Fail> {
    let mut leaves = Vec::new(alloc);
    for (id, letters, behind) in NAMES {
        leaves.push(names(alloc, id, letters, name_key(DIRECTORY, behind, 1)?)?)?;
    }
    Ok(leaves)
}

// The cell above them.
fn over_names(alloc: Global) -> Result<Arc<Cell>, Fail> {
    let mut items = Vec::new(alloc);
    for (letter, id) in [(b'0', 31), (b'3', 32), (b'4', 33)] {
        items.push(to(alloc, letter, id)?)?;
    }
    let lo = name_key(DIRECTORY, b'0', 1)?;
    let hi = name_key(DIRECTORY, b'9', 1)?;
    cell_of(alloc, 22, 2, (lo, hi), items.as_slice())
}

// The body of the first item of the first cell that comes, and how many cells come.
fn first_body(
    alloc: Global,
    slum: &[Arc<Cell>],
    parent: &Arc<Cell>,
) -> Result<(Vec<u8>, usize), Fail> {
    if !is_slum(slum, parent) {
        return Err(Fail::from("no slum"));
    }
    let change = squeeze(alloc, slum, parent)?;
    let cells = change.new.as_slice();
    Ok((body_of_first(alloc, cells)?, cells.len()))
}

// The body of the first item of the first cell.
fn body_of_first(alloc: Global, cells: &[Arc<Cell>]) -> Result<Vec<u8>, Memory> {
    if let Some(first) = cells.first()
        && first.level() > 0
        && first.node().len() > 0
    {
        return Vec::from_slice(alloc, first.node().item(0).body);
    }
    Ok(Vec::new(alloc))
}

// The body of what comes in the place of the leaves, and how many cells come.
fn names_together(alloc: Global) -> Result<(Vec<u8>, usize), Fail> {
    let slum = leaves_of_names(alloc)?;
    let parent = over_names(alloc)?;
    first_body(alloc, slum.as_slice(), &parent)
}

#[test]
fn names_come_together(rt: HostRuntime) -> Result<(), Fail> {
    let (body, cells) = names_together(rt.alloc())?;
    let all = entries(rt.alloc(), DIRECTORY, b"012345", 1)?;
    assert_eq!(&rt; cells, 2);
    assert_eq!(&rt; body.as_slice(), all.as_slice());
    Ok(())
}
