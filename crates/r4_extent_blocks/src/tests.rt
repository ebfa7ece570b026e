//! Bytes at the borders of blocks, compared with blocks that were made by hand.

ghost use Rattle.std.specs.Arc.{arc_value};
ghost use Rattle.std.specs.Prelude.{◌≡◌, IfOk};

use crate::{new_block, overwritten, sets_bytes};
use r4_base::{Block, Bytes, Key, NodeId, Oid, Value};
use r4_cell::{Cell, read_cell};
use r4_content::{ByteRun, Edits, FilledInterval, Interval, Reply};
use std::alloc::Global;
use std::sync::Arc;
use std::test::Fail;

// The key of a byte of the file.
fn byte(offset: u64) -> Key {
    Key::body(41, 0, Oid(70_000), offset)
}

// No edits.
fn none(alloc: Global) -> Edits {
    Edits {
        cuts: Vec::new(alloc),
        zeros: Vec::new(alloc),
        fills: Vec::new(alloc),
        runs: Vec::new(alloc),
        puts: Vec::new(alloc),
        reply: Reply::Okay,
    }
}

// The file's second block, of bytes 7.
fn block(alloc: Global) -> Result<Arc<Cell>, Fail>
    ensures { IfOk result (λ c. (arc_value c).level ≡ 0) }
{
    let mut block = Block::zeroed(alloc)?;
    block.bytes_mut().fill(7);
    let Ok(cell) = read_cell(alloc, NodeId(99), 0, byte(4096), byte(8192), 100, block) else {
        return Err(Fail::from("refused"));
    };
    Ok(cell)
}

// The block from a key on that these edits make.
fn made_new(alloc: Global, lo: Key, edits: &Edits) -> Result<Arc<Cell>, Fail> {
    if lo.el[3] >= 1 << 63 {
        return Err(Fail::from("too far"));
    }
    Ok(new_block(alloc, NodeId(1 << 63), lo, edits)?)
}

// Whether the cell has these bytes from some places on, and one byte everywhere else.
fn has(cell: &Cell, parts: &[(usize, &[u8])], other: u8) -> bool {
    cell.block().bytes().iter().enumerate().all(|(i, b)| {
        let mut wanted = other;
        for part in parts {
            if i >= part.0 {
                wanted = *part.1.get(i - part.0).unwrap_or(&wanted);
            }
        }
        wanted == *b
    })
}

#[test]
fn a_fill_ends_within_the_block(rt: HostRuntime) -> Result<(), Fail> {
    let alloc = rt.alloc();
    let mut edits = none(alloc);
    edits.fills.push(FilledInterval {
        from: byte(4000),
        to: byte(4098),
        byte: 3,
    })?;
    let made = overwritten(alloc, block(alloc)?.as_ref(), &edits)?;
    assert!(rt; has(&made, &[(0, &[3, 3])], 7));
    assert!(rt; made.id() == NodeId(99) && made.lo() == byte(4096) && made.hi() == byte(8192));
    assert!(rt; sets_bytes(&edits, &byte(0)) && sets_bytes(&edits, &byte(4096)));
    assert!(rt; !sets_bytes(&edits, &byte(8192)));
    Ok(())
}

#[test]
fn a_run_goes_over_both_borders(rt: HostRuntime) -> Result<(), Fail> {
    let alloc = rt.alloc();
    let mut edits = none(alloc);
    for offset in [4094, 8190] {
        let bytes = Bytes::from_vec(alloc, Vec::from_slice(alloc, b"abcd")?)?;
        edits.runs.push(ByteRun {
            from: byte(offset),
            bytes,
        })?;
    }
    let made = overwritten(alloc, block(alloc)?.as_ref(), &edits)?;
    assert!(rt; has(&made, &[(0, b"cd"), (4094, b"ab")], 7));
    let new = made_new(alloc, byte(8192), &edits)?;
    assert!(rt; has(&new, &[(0, b"cd")], 0));
    assert!(rt; new.hi() == byte(12_288));
    Ok(())
}

#[test]
fn the_last_byte_that_is_put_counts(rt: HostRuntime) -> Result<(), Fail> {
    let alloc = rt.alloc();
    let mut edits = none(alloc);
    edits.zeros.push(Interval {
        from: byte(8191),
        to: byte(9000),
    })?;
    edits.fills.push(FilledInterval {
        from: byte(0),
        to: byte(20_000),
        byte: 1,
    })?;
    edits.puts.push((byte(8191), Value::Byte(2)))?;
    let made = overwritten(alloc, block(alloc)?.as_ref(), &edits)?;
    assert!(rt; has(&made, &[(4095, &[2])], 1));
    Ok(())
}

#[test]
fn what_is_cut_stays(rt: HostRuntime) -> Result<(), Fail> {
    let alloc = rt.alloc();
    let mut edits = none(alloc);
    edits.cuts.push(Interval {
        from: byte(5000),
        to: byte(9000),
    })?;
    edits.zeros.push(Interval {
        from: byte(4096),
        to: byte(4097),
    })?;
    let made = overwritten(alloc, block(alloc)?.as_ref(), &edits)?;
    assert!(rt; has(&made, &[(0, &[0])], 7));
    Ok(())
}
