//! Many blocks over holes: which cells come, and which units they have.

use crate::filling::{fill, fill_below};
use r4_base::{Block, NodeId, put64};
use r4_branch::TwigPart;
use r4_cell::{Cell, Change, least, read_cell, top};
use r4_edit_testing::{ROOT, Row, TWIG, UNPLACED, rows};
use r4_node40::NodeMut;
use r4_path::{append, pieces_of_cell};
use std::alloc::Global;
use std::process::Abort;
use std::sync::Arc;
use std::test::Fail;

// From which block of the file on a unit stands, where it starts, and how many blocks it has.
type Run = (u64, u64, u64);

// A fill of one of two holes or of both: how many blocks each hole has, from which block on how
// many come, and which holes stay before and behind them.
#[derive(Clone, Copy)]
struct Filling {
    holes: (u64, u64),
    from: u16,
    count: u16,
    before: &'static [Run],
    behind: &'static [Run],
}

// The root of two holes of so many blocks.
fn twig_with(alloc: Global, holes: (u64, u64)) -> Result<Arc<Cell>, Fail> {
    let mut block = Block::zeroed(alloc)?;
    let mut extent = [0; 32];
    put64(&mut extent, 8, holes.0);
    put64(&mut extent, 24, holes.1);
    let mut node = NodeMut::format(&mut block, 2, 1);
    append(&mut node, 0, least(), 5, &extent);
    let Ok(cell) = read_cell(alloc, NodeId(TWIG), 2, least(), top(), 1 << 60, block) else {
        return Err(Fail::from("the twig is refused"));
    };
    Ok(cell)
}

// An extent of so many blocks that have no place yet.
fn spelled(alloc: Global, count: u16) -> Result<Vec<u8>, Fail> {
    let mut body = Vec::new(alloc);
    for i in 0..count {
        let start = UNPLACED + u64::from(i);
        body.extend_from_slice(&start.to_le_bytes())?;
        body.extend_from_slice(&1_u64.to_le_bytes())?;
    }
    Ok(body)
}

// What comes of a fill, in a tree of two levels or of three; `None` where it may not be done.
fn filled(alloc: Global, filling: Filling, is_high: bool) -> Result<Option<Change>, Fail> {
    let twig = twig_with(alloc, filling.holes)?;
    let body = spelled(alloc, filling.count)?;
    let key = least().with_offset(4096 * u64::from(filling.from));
    let change = if is_high {
        fill_below(alloc, &twig, &key, body.as_slice())?
    } else {
        fill(alloc, &twig, &key, body.as_slice())?
    };
    Ok(change)
}

// Puts the units of a twig behind others.
fn add_runs(alloc: Global, cell: &Cell, runs: &mut Vec<Run>) -> Result<(), Fail> {
    if cell.level() != 2 {
        return Ok(());
    }
    let _node = cell.node();
    let pieces = pieces_of_cell(alloc, cell)?;
    for piece in pieces.as_slice() {
        let TwigPart::Blocks(unit) = piece.part else {
            return Err(Fail::from("a leaf stands there"));
        };
        let offset = piece.key.el[3];
        if offset % 4096 != 0 || !piece.key.is_same(least().with_offset(offset)) {
            return Err(Fail::from("a unit stands at another key"));
        }
        runs.push((offset / 4096, unit.start, unit.width))?;
    }
    Ok(())
}

// The units of all twigs that come, in their order.
fn runs(alloc: Global, change: &Change) -> Result<Vec<Run>, Fail> {
    let mut runs = Vec::new(alloc);
    for cell in change.new.as_slice() {
        add_runs(alloc, cell, &mut runs)?;
    }
    Ok(runs)
}

// The units that are to stand: holes, then each of the blocks, and holes again.
fn wanted(alloc: Global, filling: Filling) -> Result<Vec<Run>, Fail> {
    let mut runs = Vec::new(alloc);
    runs.extend_from_slice(filling.before)?;
    for i in 0..filling.count {
        let nth = u64::from(i);
        runs.push((u64::from(filling.from) + nth, UNPLACED + nth, 1))?;
    }
    runs.extend_from_slice(filling.behind)?;
    Ok(runs)
}

// Looks at what comes of a fill: its units, and these cells.
fn look_at<X: Abort>(
    rt: &X,
    alloc: Global,
    filling: Filling,
    is_high: bool,
    want: &[Row],
) -> Result<bool, Fail> {
    let Some(change) = filled(alloc, filling, is_high)? else {
        return Err(Fail::from("the blocks may not be set there"));
    };
    let found = runs(alloc, &change)?;
    let units = wanted(alloc, filling)?;
    assert_eq!(rt; found.as_slice(), units.as_slice());
    let cells = rows(alloc, &change)?;
    assert_eq!(rt; cells.as_slice(), want);
    Ok(change.root.is_none())
}

// The first half of 1 MiB, from block 60 on: 60 blocks of the first hole stay before it, and 112 of
// the second one behind it.
const FIRST_HALF: Filling = Filling {
    holes: (100, 200),
    from: 60,
    count: 128,
    before: &[(0, 0, 60)],
    behind: &[(188, 0, 112)],
};

// The second half, from block 188 on: the first hole stays, and of the second one 8 blocks before
// the half and 64 behind it.
const SECOND_HALF: Filling = Filling {
    holes: (180, 200),
    from: 188,
    count: 128,
    before: &[(0, 0, 180), (180, 0, 8)],
    behind: &[(316, 0, 64)],
};

// Of a hole of 40 blocks 7 are filled: 13 stay before them and 20 behind them.
const MIDDLE: Filling = Filling {
    holes: (40, 5),
    from: 13,
    count: 7,
    before: &[(0, 0, 13)],
    behind: &[(20, 0, 20), (40, 0, 5)],
};

// As many blocks as one extent may have, in the middle of the second hole: 254 units, of which a
// twig has room for 251.
const MOST: Filling = Filling {
    holes: (40, 300),
    from: 60,
    count: 251,
    before: &[(0, 0, 40), (40, 0, 20)],
    behind: &[(311, 0, 29)],
};

// 1 MiB over the holes of two twigs, each of its own tree: an item of 130 units and one of 131.
#[test]
fn a_mebibyte_is_set_over_the_holes_of_two_twigs(rt: HostRuntime) -> Result<(), Fail> {
    for is_high in [false, true] {
        let first = look_at(&rt, rt.alloc(), FIRST_HALF, is_high, &[(TWIG, 1, 1950)])?;
        let second = look_at(&rt, rt.alloc(), SECOND_HALF, is_high, &[(TWIG, 1, 1934)])?;
        assert!(rt; first && second);
    }
    Ok(())
}

// An item of 10 units.
#[test]
fn the_middle_of_a_hole_is_filled(rt: HostRuntime) -> Result<(), Fail> {
    for is_high in [false, true] {
        let keeps_root = look_at(&rt, rt.alloc(), MIDDLE, is_high, &[(TWIG, 1, 3870)])?;
        assert!(rt; keeps_root);
    }
    Ok(())
}

// The last 3 units come into a second twig, and a root over both.
#[test]
fn a_twig_comes_for_what_has_no_room(rt: HostRuntime) -> Result<(), Fail> {
    let want = [(TWIG, 1, 14), (ROOT, 1, 3982), (ROOT + 1, 2, 3976)];
    let keeps_root = look_at(&rt, rt.alloc(), MOST, false, &want)?;
    assert!(rt; !keeps_root);
    Ok(())
}

// In a tree of three levels the root gets a pointer to the second twig.
#[test]
fn a_twig_comes_below_a_root(rt: HostRuntime) -> Result<(), Fail> {
    let want = [(TWIG, 1, 14), (ROOT + 1, 1, 3982), (ROOT, 2, 3976)];
    let keeps_root = look_at(&rt, rt.alloc(), MOST, true, &want)?;
    assert!(rt; keeps_root);
    Ok(())
}

// No extent of 252 blocks is tried.
#[test]
fn more_blocks_are_not_tried(rt: HostRuntime) -> Result<(), Fail> {
    let more = Filling { count: 252, ..MOST };
    let found = filled(rt.alloc(), more, false)?;
    assert!(rt; found.is_none());
    Ok(())
}
