//! What is gathered below one twig.

use crate::nodes::{Put, byte, cell, text_of};
use r4_cell::Cell;
use r4_row_gather::gather;
use r4_work::KeyRange;
use std::alloc::Global;
use std::sync::Arc;
use std::test::Fail;

/// Cells, with their numbers, levels, ranges and items; the keys that are gathered; and what comes then, and how many cells
/// stand.
struct Row {
    name: &'static str,
    cells: &'static [(u64, u8, (u64, u64), &'static [Put])],
    keys: (u64, u64),
    told: &'static str,
    stand: usize,
}

static ROWS: [Row; 6] = [
    Row {
        name: "leaves of two twigs",
        cells: &[
            (31, 1, (0, 4000), &[Put::Tail(0, 4000)]),
            (32, 1, (4000, 8000), &[Put::Tail(4000, 4000)]),
            (33, 1, (8000, 12000), &[Put::Tail(8000, 4000)]),
            (34, 1, (12000, 20000), &[Put::Tail(12000, 4000)]),
            (
                42,
                2,
                (8000, 20000),
                &[Put::To(8000, 33), Put::To(12000, 34)],
            ),
            (41, 2, (0, 8000), &[Put::To(0, 31), Put::To(4000, 32)]),
            (50, 3, (0, 20000), &[Put::To(0, 41), Put::To(8000, 42)]),
        ],
        keys: (4000, 12000),
        told: "\
41 0..12000: 0>31 4000>32 8000>33\n\
42 12000..20000: 12000>34\n\
50 0..20000: 0>41 12000>42\n",
        stand: 7,
    },
    Row {
        name: "an emptied leaf at a border",
        cells: &[
            (33, 1, (8192, 16000), &[]),
            (34, 1, (16000, 30000), &[Put::Tail(16000, 100)]),
            (41, 2, (0, 8192), &[Put::Extent(0, 60, 2)]),
            (
                42,
                2,
                (8192, 30000),
                &[Put::To(8192, 33), Put::To(16000, 34)],
            ),
            (50, 3, (0, 30000), &[Put::To(0, 41), Put::To(8192, 42)]),
        ],
        keys: (8192, 12288),
        told: "\
41 0..16000: 0+16\n\
42 16000..30000: 16000>34\n\
50 0..30000: 0>41 16000>42\n",
        stand: 4,
    },
    Row {
        name: "a leaf that begins later",
        cells: &[
            (33, 1, (4096, 16000), &[Put::Tail(12000, 100)]),
            (34, 1, (16000, 30000), &[Put::Tail(16000, 100)]),
            (41, 2, (0, 4096), &[Put::Extent(0, 60, 1)]),
            (
                42,
                2,
                (4096, 30000),
                &[Put::To(4096, 33), Put::To(16000, 34)],
            ),
            (50, 3, (0, 30000), &[Put::To(0, 41), Put::To(4096, 42)]),
        ],
        keys: (4096, 8192),
        told: "\
33 12000..16000: 12000+100\n\
41 0..12000: 0+16\n\
42 12000..30000: 12000>33 16000>34\n\
50 0..30000: 0>41 12000>42\n",
        stand: 5,
    },
    Row {
        name: "an emptied leaf of one twig",
        cells: &[
            (33, 1, (4096, 16000), &[]),
            (34, 1, (16000, 30000), &[Put::Tail(16000, 100)]),
            (
                41,
                2,
                (0, 30000),
                &[Put::Extent(0, 60, 1), Put::To(4096, 33), Put::To(16000, 34)],
            ),
        ],
        keys: (4096, 8192),
        told: "41 0..30000: 0+16 16000>34\n",
        stand: 2,
    },
    Row {
        name: "one twig",
        cells: &[
            (31, 1, (0, 4000), &[Put::Tail(0, 4000)]),
            (32, 1, (4000, 8000), &[Put::Tail(4000, 4000)]),
            (41, 2, (0, 8000), &[Put::To(0, 31), Put::To(4000, 32)]),
        ],
        keys: (100, 8000),
        told: "none",
        stand: 0,
    },
    Row {
        name: "two twigs, and nothing above them",
        cells: &[
            (41, 2, (0, 8000), &[Put::To(0, 31), Put::To(4000, 32)]),
            (
                42,
                2,
                (8000, 20000),
                &[Put::To(8000, 33), Put::To(12000, 34)],
            ),
        ],
        keys: (4000, 12000),
        told: "none",
        stand: 0,
    },
];

// What comes of a row, and how many cells stand then.
fn told(alloc: Global, row: &Row) -> Result<(String, usize), Fail> {
    let cells = cells_of(alloc, row)?;
    let keys = KeyRange {
        from: byte(row.keys.0),
        to: byte(row.keys.1),
    };
    let Some(gathered) = gather(alloc, cells.as_slice(), &keys)? else {
        let mut text = String::new(alloc);
        text.push_str("none")?;
        return Ok((text, 0));
    };
    let text = text_of(alloc, gathered.change.new.as_slice())?;
    Ok((text, gathered.cells.as_slice().len()))
}

// The cells of a row.
fn cells_of(alloc: Global, row: &Row) -> Result<Vec<Arc<Cell>>, Fail> {
    let mut cells = Vec::new(alloc);
    for (id, level, range, items) in row.cells {
        cells.push(cell(alloc, *id, *level, *range, items)?)?;
    }
    Ok(cells)
}

#[test]
fn keys_are_gathered(rt: HostRuntime) -> Result<(), Fail> {
    for row in &ROWS {
        let (text, stand) = told(rt.alloc(), row)?;
        assert!(&rt;
            text.as_str() == row.told,
            "{}: {}",
            row.name,
            text.as_str()
        );
        assert!(&rt; stand == row.stand, "{}", row.name);
    }
    Ok(())
}
