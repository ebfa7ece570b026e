//! Files of 16,384 bytes below several twigs, which come to extents, are cut and grow.

use crate::changed::{prints, runs_so};
use crate::file::{SIZE, byte};
use crate::tree::{Shape, volume};
use r4_outside::MemoryDevice;
use r4_run_testing::LIST;
use std::alloc::Global;
use std::process::Abort;
use std::sync::Wait;
use std::test::Fail;
use std::thread::Threads;

// Two twigs with a border at byte 7,996; and ten, the first of which names 87 leaves of the file, and
// the last 29. Below each height stands the tree with the root one level higher.
static SHAPES: [Shape; 4] = [
    Shape {
        name: "two twigs at height 3",
        len: 1999,
        leaves: 5,
        height: 3,
    },
    Shape {
        name: "two twigs at height 4",
        len: 1999,
        leaves: 5,
        height: 4,
    },
    Shape {
        name: "ten twigs at height 3",
        len: 20,
        leaves: 88,
        height: 3,
    },
    Shape {
        name: "ten twigs at height 4",
        len: 20,
        leaves: 88,
        height: 4,
    },
];

const TURN: &str = "\
script\n\
begin\n\
read /f 16384 1\n\
write /f 16384 XY\n\
read /f 16384 3\n\
read /g 0 9\n\
end\n\
commit\n";

const TURNED: &str = "\
begin t1 s1\n\
done t1 s1 c2 data 0\n\
done t1 s1 c3 ok\n\
done t1 s1 c4 data 2 5859\n\
done t1 s1 c5 data 5 6767676767\n\
ended t1\n\
sealed a1\n\
committed a1\n\
acked s1 t1\n";

const GROW: &str = "\
script\n\
begin\n\
truncate /f 3\n\
read /f 0 9\n\
fill /f 4096 20000 99\n\
read /f 1 4\n\
read /f 24094 4\n\
read /g 0 9\n\
end\n";

const GROWN: &str = "\
begin t1 s1\n\
done t1 s1 c2 ok\n\
done t1 s1 c3 data 3 616161\n\
done t1 s1 c4 ok\n\
done t1 s1 c5 data 4 61610000\n\
done t1 s1 c6 data 2 6363\n\
done t1 s1 c7 data 5 6767676767\n\
ended t1\n\
sealed a1\n\
committed a1\n";

const LISTED: &str = "\
d 0755 2 0 0 2 /\n\
f 0644 1 0 0 24096 /f\n\
f 0644 1 0 0 5 /g\n";

static CHECK: [&str; 2] = ["check", "image"];

const CHECKED: &str = "objects 3 faults 0\n";

// What is listed of the file once it came to extents.
fn listing(alloc: Global, shape: &Shape) -> Result<Vec<u8>, Fail> {
    let mut all = Vec::new(alloc);
    all.extend_from_slice(b"f 0644 1 0 0 16386 /f\n")?;
    for offset in 0..SIZE {
        all.push(byte(offset, shape.len))?;
    }
    all.extend_from_slice(b"XY\n")?;
    Ok(all)
}

// The file comes to extents with its bytes, and the tree is sound.
fn turns<X: Abort + Threads + Wait + Sync>(
    rt: &X,
    alloc: Global,
    dev: &mut MemoryDevice,
    shape: &Shape,
) -> Result<(), Fail> {
    prints(rt, alloc, &CHECK, dev, CHECKED.as_bytes())?;
    runs_so(rt, alloc, dev, TURN, TURNED)?;
    let listed = listing(alloc, shape)?;
    prints(rt, alloc, &["list", "image", "/f"], dev, listed.as_slice())?;
    prints(rt, alloc, &CHECK, dev, CHECKED.as_bytes())
}

// It is cut to its first bytes and grows again.
fn grows<X: Abort + Threads + Wait + Sync>(
    rt: &X,
    alloc: Global,
    dev: &mut MemoryDevice,
) -> Result<(), Fail> {
    runs_so(rt, alloc, dev, GROW, GROWN)?;
    prints(rt, alloc, &LIST, dev, LISTED.as_bytes())?;
    prints(rt, alloc, &CHECK, dev, CHECKED.as_bytes())
}

#[test]
fn files_turn_below_several_twigs(rt: HostRuntime) -> Result<(), Fail> {
    for shape in &SHAPES {
        let mut dev = volume(&rt, rt.alloc(), shape)?;
        turns(&rt, rt.alloc(), &mut dev, shape)?;
        grows(&rt, rt.alloc(), &mut dev)?;
    }
    Ok(())
}
