//! Scripts that are run by one thread, what is printed, and what is listed then.

use r4_run_testing::{LIST, RUN, Row, fresh, printed};
use std::alloc::Global;
use std::sync::Wait;
use std::test::Fail;
use std::thread::Threads;

const EMPTY: &str = "d 0755 2 0 0 0 /\n";

static ROWS: [Row; 16] = [
    Row {
        name: "no scripts",
        text: "",
        status: 0,
        told: "",
        listed: EMPTY,
    },
    Row {
        name: "a script that ends inside of a transaction",
        text: "script\nbegin\ncreate /a\n",
        status: 0,
        told: "begin t1 s1\ndone t1 s1 c2 ok\nended t1\nsealed a1\ncommitted a1\n",
        listed: "d 0755 2 0 0 1 /\nf 0644 1 0 0 0 /a\n",
    },
    Row {
        name: "ordinary use",
        text: "\
script\n\
mkdir /etc\n\
create /etc/hosts\n\
write /etc/hosts 0 127.0.0.1 localhost\n\
commit\n",
        status: 0,
        told: "\
begin t1 s1\n\
done t1 s1 c1 ok\n\
ended t1\n\
begin t2 s1\n\
fuse a1 a2 n23\n\
done t2 s1 c2 ok\n\
ended t2\n\
begin t3 s1\n\
fuse a1 a3 n23\n\
done t3 s1 c3 ok\n\
ended t3\n\
sealed a1\n\
committed a1\n\
acked s1 t3\n",
        listed: "d 0755 3 0 0 1 /\nd 0755 2 0 0 1 /etc\nf 0644 1 0 0 19 /etc/hosts\n",
    },
    Row {
        name: "fusing and waiting",
        text: "\
script\n\
begin\n\
create /a\n\
write /a 0 x\n\
write /a 1 y\n\
end\n\
script\n\
begin\n\
stat /a\n\
end\n\
commit\n",
        status: 0,
        told: "\
begin t1 s1\n\
begin t2 s2\n\
done t1 s1 c2 ok\n\
fuse a1 a2 n23\n\
done t2 s2 c2 attr 100644 1 0 0 0 0 0 0\n\
done t1 s1 c3 ok\n\
ended t2\n\
done t1 s1 c4 ok\n\
ended t1\n\
sealed a1\n\
committed a1\n\
acked s2 t2\n",
        listed: "d 0755 2 0 0 1 /\nf 0644 1 0 0 2 /a\n",
    },
    Row {
        name: "refusals",
        text: "\
script\n\
mkdir /d\n\
rmdir /\n\
unlink /d\n\
stat /q\n\
mkdir /d\n\
create /a/\n\
rename /d /d/x\n",
        status: 0,
        told: "\
begin t1 s1\n\
done t1 s1 c1 ok\n\
ended t1\n\
begin t2 s1\n\
done t2 s1 c2 loop\n\
ended t2\n\
begin t3 s1\n\
fuse a1 a3 n23\n\
done t3 s1 c3 isdir\n\
ended t3\n\
begin t4 s1\n\
fuse a1 a4 n23\n\
done t4 s1 c4 absent\n\
ended t4\n\
begin t5 s1\n\
fuse a1 a5 n23\n\
done t5 s1 c5 exists\n\
ended t5\n\
begin t6 s1\n\
done t6 s1 c6 name\n\
ended t6\n\
begin t7 s1\n\
fuse a1 a7 n23\n\
done t7 s1 c7 loop\n\
ended t7\n\
sealed a1\n\
committed a1\n\
sealed a2\n\
committed a2\n\
sealed a6\n\
committed a6\n",
        listed: "d 0755 3 0 0 1 /\nd 0755 2 0 0 0 /d\n",
    },
    Row {
        name: "a clash of hashes",
        text: "\
script\n\
begin\n\
create /aaaaaaaaaaaaaaaxxxxxxxca\n\
create /aaaaaaaaaaaaaaaxxxxxxxbl\n\
end\n",
        status: 0,
        told: "\
begin t1 s1\n\
done t1 s1 c2 ok\n\
done t1 s1 c3 clash aaaaaaaaaaaaaaaxxxxxxxca\n\
ended t1\n\
sealed a1\n\
committed a1\n",
        listed: "d 0755 2 0 0 1 /\nf 0644 1 0 0 0 /aaaaaaaaaaaaaaaxxxxxxxca\n",
    },
    Row {
        name: "scripts without commands",
        text: "# nothing\n\nscript\nscript\n",
        status: 0,
        told: "",
        listed: EMPTY,
    },
    Row {
        name: "a volume that gets full",
        text: "\
script\n\
begin\n\
create /a\n\
create /b\n\
create /c\n\
create /d\n\
create /e\n\
fill /a 0 16384 97\n\
fill /b 0 16384 98\n\
fill /c 0 16384 99\n\
fill /d 0 16384 100\n\
fill /e 0 16384 101\n\
stat /e\n\
end\n\
commit\n\
fill /e 0 16384 101\n\
commit\n\
unlink /a\n\
commit\n",
        status: 0,
        told: "\
begin t1 s1\n\
done t1 s1 c2 ok\n\
done t1 s1 c3 ok\n\
done t1 s1 c4 ok\n\
done t1 s1 c5 ok\n\
done t1 s1 c6 ok\n\
done t1 s1 c7 ok\n\
done t1 s1 c8 ok\n\
done t1 s1 c9 ok\n\
done t1 s1 c10 ok\n\
refused t1 s1 c11 space 8 2\n\
done t1 s1 c12 attr 100644 1 0 0 0 0 0 0\n\
ended t1\n\
sealed a1\n\
committed a1\n\
acked s1 t1\n\
begin t2 s1\n\
done t2 s1 c15 ok\n\
ended t2\n\
sealed a2\n\
committed a2\n\
acked s1 t2\n\
begin t3 s1\n\
done t3 s1 c17 ok\n\
ended t3\n\
sealed a3\n\
committed a3\n\
acked s1 t3\n",
        listed: "\
d 0755 2 0 0 4 /\n\
f 0644 1 0 0 16384 /b\n\
f 0644 1 0 0 16384 /c\n\
f 0644 1 0 0 16384 /d\n\
f 0644 1 0 0 16384 /e\n",
    },
    Row {
        name: "a field too many",
        text: "script\ncommit now\n",
        status: 3,
        told: "script: line 2 column 8: field\n",
        listed: EMPTY,
    },
    Row {
        name: "an unknown word",
        text: "script\nfrob /a\n",
        status: 3,
        told: "script: line 2 column 1: command\n",
        listed: EMPTY,
    },
    Row {
        name: "a field too few",
        text: "script\nmkdir\n",
        status: 3,
        told: "script: line 2 column 6: field\n",
        listed: EMPTY,
    },
    Row {
        name: "an end without a beginning",
        text: "script\nend\n",
        status: 3,
        told: "script: line 2 column 1: unopened\n",
        listed: EMPTY,
    },
    Row {
        name: "a number past its greatest",
        text: "script\nfill /a 0 1 256\n",
        status: 3,
        told: "script: line 2 column 13: number\n",
        listed: EMPTY,
    },
    Row {
        name: "a path without a slash",
        text: "script\n\n# x\nmkdir a\n",
        status: 3,
        told: "script: line 4 column 7: path\n",
        listed: EMPTY,
    },
    Row {
        name: "a transaction inside of another one",
        text: "script\nbegin\nbegin\n",
        status: 3,
        told: "script: line 3 column 1: nested\n",
        listed: EMPTY,
    },
    Row {
        name: "a commit inside of a transaction",
        text: "script\nbegin\ncommit\n",
        status: 3,
        told: "script: line 3 column 1: open\n",
        listed: EMPTY,
    },
];

// A row is as it says.
fn holds<X: Threads + Wait + Sync>(rt: &X, alloc: Global, row: &Row) -> Result<bool, Fail> {
    let mut dev = fresh(rt, alloc, 64)?;
    let told = printed(rt, alloc, &RUN, &mut dev, row.text, row.status)?;
    let listed = printed(rt, alloc, &LIST, &mut dev, "", 0)?;
    Ok(told.as_slice() == row.told.as_bytes() && listed.as_slice() == row.listed.as_bytes())
}

#[test]
fn scripts_are_run(rt: HostRuntime) -> Result<(), Fail> {
    for row in &ROWS {
        assert!(&rt; holds(&rt, rt.alloc(), row)?, "{}", row.name);
    }
    Ok(())
}
