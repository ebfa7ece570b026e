//! Stat data, extents, pointers and tails, over tables of bodies.

use crate::same::{same, same_in};
use r4_base::{Attr, BlockNo, ExtentFault, StatFault, Unit, put64};
use r4_meta::{read_stat, tail_part, write_stat};
use r4_twig::{ExtentView, join, join_law, pointer, put_pointer, replace, split_at};
use std::alloc::Global;
use std::test::Fail;

// A directory as a new volume has it.
const ROOT: Attr = Attr {
    mode: 0o40755,
    nlink: 2,
    size: 0,
    uid: 0,
    gid: 0,
    atime: 0,
    mtime: 0,
    ctime: 0,
    bytes: 0,
};

// So many bytes of a body, behind which zeros stand, with one byte changed.
fn damaged(alloc: Global, body: &[u8], at: usize, byte: u8, long: usize) -> Result<Vec<u8>, Fail> {
    let mut bytes = Vec::new(alloc);
    for i in 0..long {
        let was = body.get(i).copied().unwrap_or(0);
        bytes.push(if i == at { byte } else { was })?;
    }
    Ok(bytes)
}

// The byte that is changed, what it is to be, how many bytes are read, and what they are refused for.
static OF_STAT_DATA: [(usize, u8, usize, Option<StatFault>); 13] = [
    (0, 3, 44, None),
    (3, 0x81, 44, None),
    (0, 3, 0, Some(StatFault::Mask)),
    (0, 3, 1, Some(StatFault::Mask)),
    (0, 7, 44, Some(StatFault::Mask)),
    (0, 1, 44, Some(StatFault::Mask)),
    (1, 1, 44, Some(StatFault::Mask)),
    (0, 3, 2, Some(StatFault::Length)),
    (0, 3, 43, Some(StatFault::Length)),
    (0, 3, 45, Some(StatFault::Length)),
    (3, 0x01, 44, Some(StatFault::Kind)),
    (3, 0xa1, 44, Some(StatFault::Kind)),
    (3, 0xc1, 44, Some(StatFault::Kind)),
];

#[test]
fn stat_data_are_read(rt: HostRuntime) -> Result<(), Fail> {
    let mut body = [0xffu8; 44];
    write_stat(&mut body, &ROOT);
    let begins = [3, 0, 0xed, 0x41, 2, 0, 0, 0, 0];
    same(&rt, &&body[..9], &begins.as_slice(), "first bytes");
    for (row, &(at, byte, long, fault)) in OF_STAT_DATA.iter().enumerate() {
        let bytes = damaged(rt.alloc(), &body, at, byte, long)?;
        same_in(&rt, &read_stat(&bytes).err(), &fault, row);
    }
    same(&rt, &read_stat(&body), &Ok(ROOT), "read again");
    Ok(())
}

// Numbers, and whether a pointer may name them.
static POINTERS: [(u64, bool); 4] = [(0, false), (21, false), (22, true), (u64::MAX, true)];

#[test]
fn pointers_are_read(rt: HostRuntime) -> Result<(), Fail> {
    for (row, &(to, is_named)) in POINTERS.iter().enumerate() {
        let mut eight = [0u8; 8];
        put_pointer(&mut eight, BlockNo(to));
        let wanted = is_named.then_some(BlockNo(to));
        same_in(&rt, &pointer(&eight), &wanted, row);
        same_in(&rt, &pointer(&eight[..7]), &None, row);
    }
    Ok(())
}

#[test]
fn tails_are_read(rt: HostRuntime) -> Result<(), Fail> {
    let body = *b"0123456789";
    let parts = [
        tail_part(&body, 0, 10),
        tail_part(&body, 3, 5),
        tail_part(&body, 10, 10),
    ];
    let wanted = [b"0123456789".as_slice(), b"34".as_slice(), b"".as_slice()];
    same(&rt, &parts, &wanted, "parts");
    Ok(())
}

// The body of an extent.
fn spelled(alloc: Global, units: &[(u64, u64)]) -> Result<Vec<u8>, Fail> {
    let mut bytes = Vec::new(alloc);
    for &(start, width) in units {
        let mut unit = [0u8; 16];
        put64(&mut unit, 0, start);
        put64(&mut unit, 8, width);
        for &byte in &unit {
            bytes.push(byte)?;
        }
    }
    Ok(bytes)
}

// The smallest start that stands for a block without a place.
const FAR: u64 = 1 << 63;

// The units of an extent.
type Units = &'static [(u64, u64)];

// The units, and what they are refused for on 65536 blocks, and in memory.
static OF_EXTENTS: [(Units, Option<ExtentFault>, Option<ExtentFault>); 13] = [
    (&[(22, 1)], None, None),
    (&[(0, 5), (65535, 1)], None, None),
    (&[(32735, 1), (32737, 32735)], None, None),
    (&[], Some(ExtentFault::Length), Some(ExtentFault::Length)),
    (
        &[(1, 1)],
        Some(ExtentFault::Start(0)),
        Some(ExtentFault::Start(0)),
    ),
    (
        &[(22, 1), (21, 0)],
        Some(ExtentFault::Start(1)),
        Some(ExtentFault::Start(1)),
    ),
    (
        &[(22, 1), (0, 0)],
        Some(ExtentFault::Width(1)),
        Some(ExtentFault::Width(1)),
    ),
    (
        &[(70000, 0)],
        Some(ExtentFault::Width(0)),
        Some(ExtentFault::Width(0)),
    ),
    (
        &[(65535, 2)],
        Some(ExtentFault::Range(0)),
        Some(ExtentFault::Range(0)),
    ),
    (
        &[(32736, 1)],
        Some(ExtentFault::Range(0)),
        Some(ExtentFault::Range(0)),
    ),
    (
        &[(32735, 2)],
        Some(ExtentFault::Range(0)),
        Some(ExtentFault::Range(0)),
    ),
    (&[(FAR, 1)], Some(ExtentFault::Range(0)), None),
    (
        &[(22, 1), (FAR, 2)],
        Some(ExtentFault::Range(1)),
        Some(ExtentFault::Range(1)),
    ),
];

#[test]
fn extents_are_read(rt: HostRuntime) -> Result<(), Fail> {
    for (row, &(units, stored, kept)) in OF_EXTENTS.iter().enumerate() {
        let body = spelled(rt.alloc(), units)?;
        if body.len() >= 16 * 65536 {
            return Err(Fail::from("the units cannot be counted"));
        }
        same_in(&rt, &ExtentView::read(&body, 65536).err(), &stored, row);
        let refused = ExtentView::in_memory(&body, 65536).err();
        same_in(&rt, &refused, &kept, row);
    }
    Ok(())
}

// The units, with unit `i` cut behind `width` blocks.
fn cut(alloc: Global, units: &[(u64, u64)], i: u16, width: u64) -> Result<Vec<u8>, Fail> {
    let mut body = spelled(alloc, units)?;
    if body.len() < 32 || body.len() > 4096 {
        return Err(Fail::from("the units do not fit"));
    }
    let used = body.len() - 16;
    let Ok(view) = ExtentView::in_memory(&body[..used], 1 << 63) else {
        return Err(Fail::from("the units are refused"));
    };
    if i >= view.len() || width == 0 || width >= view.unit(i).width {
        return Err(Fail::from("the unit has not as many blocks"));
    }
    split_at(&mut body, used, i, width);
    Ok(body)
}

// The units and room for one more; the unit and its blocks; what comes of it.
static CUTS: [(Units, u16, u64, Units); 3] = [
    (&[(30, 9), (7, 7)], 0, 4, &[(30, 4), (34, 5)]),
    (&[(0, 9), (50, 1), (7, 7)], 0, 1, &[(0, 1), (0, 8), (50, 1)]),
    (
        &[(50, 1), (60, 3), (7, 7)],
        1,
        2,
        &[(50, 1), (60, 2), (62, 1)],
    ),
];

#[test]
fn extents_are_cut(rt: HostRuntime) -> Result<(), Fail> {
    let alloc = rt.alloc();
    for (row, &(units, i, width, wanted)) in CUTS.iter().enumerate() {
        let body = cut(alloc, units, i, width)?;
        same_in(&rt, &body, &spelled(alloc, wanted)?, row);
    }
    Ok(())
}

ghost use Rattle.std.specs.Prelude.{◌≡◌, IfSome};
ghost use Rattle.r4_base.specs.Extents.{blocks_in};
ghost use Rattle.r4_twig.specs.View.{view_units};

// How many blocks the units have, where 64 bits are enough.
fn blocks_of(view: &ExtentView<'_>) -> Option<u64>
    ensures { IfSome result (λ n. n ≡ blocks_in (view_units view.now)) }
{
    let mut blocks = 0u64;
    for i in 0..view.len() {
        blocks = blocks.checked_add(view.unit(i).width)?;
    }
    Some(blocks)
}

// The units, with neighbours made one.
fn made_one(alloc: Global, units: &[(u64, u64)]) -> Result<Vec<u8>, Fail> {
    let mut body = spelled(alloc, units)?;
    let used = body.len();
    if used > 4096 {
        return Err(Fail::from("the units do not fit"));
    }
    let Ok(view) = ExtentView::in_memory(&body, 1 << 63) else {
        return Err(Fail::from("the units are refused"));
    };
    let Some(_) = blocks_of(&view) else {
        return Err(Fail::from("there are too many blocks"));
    };
    join_law();
    let end = join(&mut body, used);
    body.truncate(end);
    Ok(body)
}

// Units, and the same with neighbours made one.
static JOINS: [(Units, Units); 5] = [
    (&[(30, 2)], &[(30, 2)]),
    (&[(30, 2), (32, 1), (33, 4)], &[(30, 7)]),
    (
        &[(30, 2), (33, 1), (0, 3), (0, 4)],
        &[(30, 2), (33, 1), (0, 7)],
    ),
    (&[(0, 30), (30, 2), (0, 1)], &[(0, 30), (30, 2), (0, 1)]),
    (&[(FAR, 1), (FAR + 1, 1)], &[(FAR, 1), (FAR + 1, 1)]),
];

#[test]
fn extents_are_made_one(rt: HostRuntime) -> Result<(), Fail> {
    let alloc = rt.alloc();
    for (row, &(units, wanted)) in JOINS.iter().enumerate() {
        let body = made_one(alloc, units)?;
        same_in(&rt, &body, &spelled(alloc, wanted)?, row);
    }
    Ok(())
}

#[test]
fn units_are_replaced(rt: HostRuntime) -> Result<(), Fail> {
    let mut body = [0xffu8; 48];
    replace(
        &mut body,
        1,
        &Unit {
            start: 22,
            width: 3,
        },
    );
    let mut wanted = [0xffu8; 48];
    put64(&mut wanted, 16, 22);
    put64(&mut wanted, 24, 3);
    same(&rt, &body, &wanted, "bytes");
    Ok(())
}
