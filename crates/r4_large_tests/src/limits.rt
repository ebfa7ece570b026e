//! Files at the limit of tails and at that of files, and a volume that is full.

use crate::large::{Body, has_bytes, shows};
use r4_run_testing::{LIST, RUN, fresh, printed};
use std::alloc::Global;
use std::process::Abort;
use std::sync::Wait;
use std::test::Fail;
use std::thread::Threads;

/// Scripts on a fresh volume of so many blocks, what their run prints, and what is listed then.
struct Limit {
    blocks: u64,
    text: &'static str,
    trace: &'static str,
    listed: &'static str,
    body: Option<Body>,
}

static ROWS: [Limit; 4] = [
    // In tails.
    Limit {
        blocks: 1024,
        text: "script\ncreate /f\nfill /f 0 16384 97\ncommit\n",
        trace: "\
begin t1 s1\n\
done t1 s1 c1 ok\n\
ended t1\n\
begin t2 s1\n\
fuse a1 a2 n23\n\
done t2 s1 c2 ok\n\
ended t2\n\
sealed a1\n\
committed a1\n\
acked s1 t2\n",
        listed: "d 0755 2 0 0 1 /\nf 0644 1 0 0 16384 /f\n",
        body: Some(Body {
            path: "/f",
            line: "f 0644 1 0 0 16384 /f\n",
            pieces: &[("a", 16_384)],
        }),
    },
    // In extents.
    Limit {
        blocks: 1024,
        text: "script\ncreate /f\nfill /f 0 16384 97\ncommit\nwrite /f 16384 b\ncommit\n",
        trace: "\
begin t1 s1\n\
done t1 s1 c1 ok\n\
ended t1\n\
begin t2 s1\n\
fuse a1 a2 n23\n\
done t2 s1 c2 ok\n\
ended t2\n\
sealed a1\n\
committed a1\n\
acked s1 t2\n\
begin t3 s1\n\
done t3 s1 c4 ok\n\
ended t3\n\
sealed a3\n\
committed a3\n\
acked s1 t3\n",
        listed: "d 0755 2 0 0 1 /\nf 0644 1 0 0 16385 /f\n",
        body: Some(Body {
            path: "/f",
            line: "f 0644 1 0 0 16385 /f\n",
            pieces: &[("a", 16_384), ("b", 1)],
        }),
    },
    // The largest file. It is not listed, since its bytes are 2^30.
    Limit {
        blocks: 1024,
        text: "\
script\n\
create /f\n\
write /f 1073741823 x\n\
write /f 1073741824 x\n\
read /f 1073741822 5\n\
stat /f\n",
        trace: "\
begin t1 s1\n\
done t1 s1 c1 ok\n\
ended t1\n\
begin t2 s1\n\
fuse a1 a2 n23\n\
done t2 s1 c2 ok\n\
ended t2\n\
begin t3 s1\n\
fuse a1 a3 n23\n\
done t3 s1 c3 toobig\n\
ended t3\n\
begin t4 s1\n\
fuse a1 a4 n22\n\
done t4 s1 c4 data 2 0078\n\
ended t4\n\
begin t5 s1\n\
fuse a1 a5 n23\n\
done t5 s1 c5 attr 100644 1 1073741824 0 0 0 0 0\n\
ended t5\n\
sealed a1\n\
committed a1\n",
        listed: "d 0755 2 0 0 1 /\nf 0644 1 0 0 1073741824 /f\n",
        body: None,
    },
    // On 64 blocks 40 are free.
    Limit {
        blocks: 64,
        text: "\
script\n\
create /a\n\
fill /a 0 524288 97\n\
fill /a 0 20480 97\n\
commit\n\
fill /a 20480 81920 97\n\
unlink /a\n\
commit\n\
create /b\n\
fill /b 0 61440 97\n",
        trace: "\
begin t1 s1\n\
done t1 s1 c1 ok\n\
ended t1\n\
begin t2 s1\n\
fuse a1 a2 n23\n\
refused t2 s1 c2 space 257 35\n\
ended t2\n\
begin t3 s1\n\
fuse a1 a3 n23\n\
done t3 s1 c3 ok\n\
ended t3\n\
sealed a1\n\
committed a1\n\
acked s1 t3\n\
begin t4 s1\n\
refused t4 s1 c5 space 46 35\n\
ended t4\n\
begin t5 s1\n\
done t5 s1 c6 ok\n\
ended t5\n\
sealed a4\n\
committed a4\n\
sealed a5\n\
committed a5\n\
acked s1 t5\n\
begin t6 s1\n\
done t6 s1 c8 ok\n\
ended t6\n\
begin t7 s1\n\
fuse a6 a7 n23\n\
done t7 s1 c9 ok\n\
ended t7\n\
sealed a6\n\
committed a6\n",
        listed: "d 0755 2 0 0 1 /\nf 0644 1 0 0 61440 /b\n",
        body: Some(Body {
            path: "/b",
            line: "f 0644 1 0 0 61440 /b\n",
            pieces: &[("a", 61_440)],
        }),
    },
];

// Ends the test unless a row is as it says.
fn holds<X: Abort + Threads + Wait + Sync>(rt: &X, alloc: Global, row: &Limit) -> Result<(), Fail> {
    let mut dev = fresh(rt, alloc, row.blocks)?;
    let told = printed(rt, alloc, &RUN, &mut dev, row.text, 0)?;
    let told = String::from_utf8_lossy(alloc, &told)?;
    assert_eq!(rt; told.as_str(), row.trace);
    shows(rt, alloc, &LIST, &mut dev, row.listed)?;
    if let Some(body) = &row.body {
        assert!(rt; has_bytes(rt, alloc, &mut dev, body)?, "{}", body.line);
    }
    Ok(())
}

#[test]
fn limits_are_kept(rt: HostRuntime) -> Result<(), Fail> {
    for row in &ROWS {
        holds(&rt, rt.alloc(), row)?;
    }
    Ok(())
}
