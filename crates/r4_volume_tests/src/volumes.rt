//! The command `mkfs`.

ghost use Rattle.r4_outside.specs.Device.{Goes};
ghost use Rattle.r4_outside.specs.Memory.{memory_state};

use crate::same::same_in;
use r4_base::BlockNo;
use r4_outside::{Device, MemoryDevice, MemorySink};
use r4_testing::call;
use std::alloc::Global;
use std::process::Abort;
use std::test::Fail;

static MKFS: [&str; 2] = ["mkfs", "image"];

// How many blocks a device has; the status and the line.
static SIZES: [(u64, u8, &str); 4] = [
    (63, 8, "size: 63 blocks\n"),
    (64, 0, "made 64 blocks 40 free\n"),
    (32_736, 0, "made 32736 blocks 32712 free\n"),
    (32_737, 0, "made 32737 blocks 32712 free\n"),
];

// The first bytes of the root, and of the leaf, of a fresh volume.
const TWIG: &[u8] =
    b"\x00\x00\x01\x00\xb6\x0f\x24\x00\x53\x46\x34\x52\x01\0\0\0\0\0\0\0\0\0\0\0\0\0\x02\0\x17\0\0\0\0\0\0\0";

const LEAF: &[u8] =
    b"\x00\x00\x01\x00\x92\x0f\x48\x00\x53\x46\x34\x52\x01\0\0\0\0\0\0\0\0\0\0\0\0\0\x01\0\x03\0\xed\x41\x02\0\0\0";

// The item headers: the least key, where the body begins, flags and the item's plugin.
const TWIG_HEADER: &[u8] =
    b"\x91\x02\0\0\0\0\0\0\0\0\0\0\0\0\0\0\x2a\0\0\0\0\0\0\0\0\0\0\0\0\0\0\0\x1c\0\0\0\x03\0";

const LEAF_HEADER: &[u8] =
    b"\x91\x02\0\0\0\0\0\0\0\0\0\0\0\0\0\0\x2a\0\0\0\0\0\0\0\0\0\0\0\0\0\0\0\x1c\0\0\0\0\0";

// A block of a fresh volume, what it begins and ends with, and zeros between.
static BLOCKS: [(u64, &[u8], &[u8]); 7] = [
    (16, b"ReIsEr4\0\0\0\0\0\0\0\0\0\0\0\0\x10", b""),
    (18, b"\0\0\0\0\xff\xff\xff\0\0\0\0\0", b""),
    (19, b"", b""),
    (20, b"", b""),
    (21, b"", b""),
    (22, TWIG, TWIG_HEADER),
    (23, LEAF, LEAF_HEADER),
];

#[test]
fn volumes_are_made(rt: HostRuntime) -> Result<(), Fail> {
    for (row, &(blocks, status, line)) in SIZES.iter().enumerate() {
        let mut dev = MemoryDevice::plain(rt.alloc(), blocks)?;
        makes(&rt, rt.alloc(), &mut dev, (status, line), row)?;
    }
    Ok(())
}

// Makes a volume, and looks at the status and the line.
fn makes<X: Abort>(
    rt: &X,
    alloc: Global,
    dev: &mut MemoryDevice,
    wanted: (u8, &str),
    row: usize,
) -> Result<(), Fail> {
    let mut out = MemorySink::new(alloc, 100)?;
    let code = call(alloc, &MKFS, dev, &mut out)?;
    same_in(rt, &code, &wanted.0, row);
    same_in(rt, &out.written(), &wanted.1.as_bytes(), row);
    Ok(())
}

// Does the block begin and end so, with zeros between? Bytes past the end of bitmaps are ones.
fn is_block(bytes: &[u8], front: &[u8], back: &[u8], fill: u8) -> bool {
    let Some(rest) = bytes.strip_prefix(front) else {
        return false;
    };
    let Some(middle) = rest.strip_suffix(back) else {
        return false;
    };
    middle.iter().all(|&byte| byte == fill)
}

#[test]
fn a_fresh_volume_has_these_bytes(rt: HostRuntime) -> Result<(), Fail> {
    let mut dev = MemoryDevice::new(rt.alloc(), 64)?;
    make(rt.alloc(), &mut dev, &MKFS)?;
    for (row, &(at, front, back)) in BLOCKS.iter().enumerate() {
        let fill = if at == 18 { 0xff } else { 0 };
        let good = at < 64 && is_block(dev.block(BlockNo(at)).bytes(), front, back, fill);
        same_in(&rt, &good, &true, row);
    }
    Ok(())
}

// The status with which these words are done.
fn make(alloc: Global, dev: &mut MemoryDevice, words: &[&str]) -> Result<u8, Fail>
    ensures { Goes (memory_state dev.old) (memory_state dev.new) }
{
    let mut out = MemorySink::new(alloc, 100)?;
    call(alloc, words, dev, &mut out)
}

// The words, and the label that the volume then has.
static LABELS: [(&[&str], &[u8]); 3] = [
    (
        &["mkfs", "image", "--label", "0123456789abcdef"],
        b"0123456789abcdef",
    ),
    (
        &["mkfs", "image", "--label=data"],
        b"data\0\0\0\0\0\0\0\0\0\0\0\0",
    ),
    (&["mkfs", "image"], b"\0\0\0\0\0\0\0\0\0\0\0\0\0\0\0\0"),
];

#[test]
fn labels_are_written(rt: HostRuntime) -> Result<(), Fail> {
    for (row, &(words, label)) in LABELS.iter().enumerate() {
        let mut dev = MemoryDevice::new(rt.alloc(), 64)?;
        let code = make(rt.alloc(), &mut dev, words)?;
        same_in(&rt, &code, &0, row);
        let written = dev.block(BlockNo(16)).bytes()[36..52].starts_with(label);
        same_in(&rt, &written, &true, row);
        same_in(&rt, &dev.clock(), &10, row);
    }
    Ok(())
}

#[test]
fn each_call_that_fails_is_told(rt: HostRuntime) -> Result<(), Fail> {
    for call_number in 1..=10 {
        let mut dev = MemoryDevice::new(rt.alloc(), 64)?;
        dev.fail(rt.alloc(), call_number)?;
        let code = make(rt.alloc(), &mut dev, &MKFS)?;
        same_in(
            &rt,
            &(code, dev.clock(), dev.faults()),
            &(6, call_number, 1),
            call_number as usize,
        );
    }
    Ok(())
}
