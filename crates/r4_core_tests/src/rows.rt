//! What is told of jobs that run up to their first flush.

use r4_core_testing::{Core, Image, Log, ONE, Way, opened, run, run_pushed};
use r4_outside::{MemoryDevice, Unnamed};
use std::alloc::Global;
use std::test::Fail;

/// The scripts of a job, the volume on which and the way in which it runs, what comes later to the
/// scripts, and what is told.
struct Row {
    name: &'static str,
    image: Image,
    scripts: &'static str,
    pushed: &'static str,
    way: Way,
    told: &'static str,
}

const OLDEST: Way = Way {
    out: 2,
    newest: false,
};

const NEWEST: Way = Way {
    out: 2,
    newest: true,
};

static ROWS: [Row; 16] = [
    Row {
        name: "scripts in turn",
        image: Image::Fresh(4096),
        scripts: "\
script\n\
begin\n\
create /a\n\
write /a 0 hello\n\
end\n\
stat /a\n\
read /a 0 10\n\
mkdir /d\n\
names /\n\
commit\n\
script\n\
create /b\n\
stat /zz\n\
unlink /a\n\
rename /b /d/c\n\
script\n\
create /x\n\
stat /d\n\
names /d\n",
        pushed: "",
        way: ONE,
        told: "\
begin t1 s1\n\
begin t2 s2\n\
done t2 s2 c1 ok\n\
ended t2\n\
begin t3 s3\n\
fuse a2 a3 n23\n\
done t3 s3 c1 ok\n\
ended t3\n\
fuse a1 a2 n23\n\
done t1 s1 c2 ok\n\
begin t4 s2\n\
fuse a1 a4 n23\n\
done t4 s2 c2 absent\n\
ended t4\n\
begin t5 s3\n\
fuse a1 a5 n23\n\
done t5 s3 c2 absent\n\
ended t5\n\
done t1 s1 c3 ok\n\
begin t6 s2\n\
fuse a1 a6 n23\n\
done t6 s2 c3 ok\n\
ended t6\n\
begin t7 s3\n\
fuse a1 a7 n23\n\
done t7 s3 c3 absent\n\
ended t7\n\
ended t1\n\
begin t8 s2\n\
fuse a1 a8 n23\n\
done t8 s2 c4 absent\n\
ended t8\n\
begin t9 s1\n\
fuse a1 a9 n23\n\
done t9 s1 c5 absent\n\
ended t9\n\
begin t10 s1\n\
fuse a1 a10 n23\n\
done t10 s1 c6 absent\n\
ended t10\n\
begin t11 s1\n\
fuse a1 a11 n23\n\
done t11 s1 c7 ok\n\
ended t11\n\
begin t12 s1\n\
fuse a1 a12 n23\n\
done t12 s1 c8 names 3 b d x\n\
ended t12\n\
flush a1\n",
    },
    Row {
        name: "a file in a directory",
        image: Image::Fresh(64),
        scripts: "\
script\n\
mkdir /etc\n\
create /etc/hosts\n\
write /etc/hosts 0 127.0.0.1 localhost\n\
commit\n",
        pushed: "",
        way: ONE,
        told: "\
begin t1 s1\n\
done t1 s1 c1 ok\n\
ended t1\n\
begin t2 s1\n\
fuse a1 a2 n23\n\
done t2 s1 c2 ok\n\
ended t2\n\
begin t3 s1\n\
fuse a1 a3 n23\n\
done t3 s1 c3 ok\n\
ended t3\n\
flush a1\n",
    },
    Row {
        name: "two files, one task after another",
        image: Image::TwoFiles,
        scripts: "\
script\n\
write /a 8192 XY\n\
commit\n\
script\n\
write /b 8192 XY\n\
commit\n",
        pushed: "",
        way: ONE,
        told: "\
begin t1 s1\n\
done t1 s1 c1 ok\n\
ended t1\n\
begin t2 s2\n\
done t2 s2 c1 ok\n\
ended t2\n\
flush a1\n",
    },
    Row {
        name: "two files, two tasks, the first one first",
        image: Image::TwoFiles,
        scripts: "\
script\n\
begin\n\
write /a 8192 XY\n\
read /a 8190 6\n\
end\n\
commit\n\
script\n\
begin\n\
write /b 8192 XY\n\
read /b 8190 6\n\
end\n\
commit\n",
        pushed: "",
        way: OLDEST,
        told: "\
begin t1 s1\n\
begin t2 s2\n\
done t1 s1 c2 ok\n\
done t2 s2 c2 ok\n\
done t1 s1 c3 data 6 616158596161\n\
ended t1\n\
done t2 s2 c3 data 6 626258596262\n\
ended t2\n\
flush a1\n",
    },
    Row {
        name: "two files, two tasks, the last one first",
        image: Image::TwoFiles,
        scripts: "\
script\n\
begin\n\
write /a 8192 XY\n\
read /a 8190 6\n\
end\n\
commit\n\
script\n\
begin\n\
write /b 8192 XY\n\
read /b 8190 6\n\
end\n\
commit\n",
        pushed: "",
        way: NEWEST,
        told: "\
begin t1 s1\n\
begin t2 s2\n\
done t2 s2 c2 ok\n\
done t2 s2 c3 data 6 626258596262\n\
ended t2\n\
done t1 s1 c2 ok\n\
done t1 s1 c3 data 6 616158596161\n\
ended t1\n\
flush a1\n",
    },
    Row {
        name: "two files that are made, the first task first",
        image: Image::Fresh(1024),
        scripts: "\
script\n\
begin\n\
create /a\n\
fill /a 0 16384 97\n\
write /a 8192 XY\n\
read /a 8190 6\n\
end\n\
commit\n\
script\n\
begin\n\
create /b\n\
fill /b 0 16384 98\n\
write /b 8192 XY\n\
read /b 8190 6\n\
end\n\
commit\n",
        pushed: "",
        way: OLDEST,
        told: "\
begin t1 s1\n\
begin t2 s2\n\
wait out s1\n\
done t1 s1 c2 ok\n\
fuse a1 a2 n23\n\
wait out s2\n\
done t2 s2 c2 ok\n\
wait out s1\n\
done t1 s1 c3 ok\n\
wait out s2\n\
done t2 s2 c3 ok\n\
done t1 s1 c4 ok\n\
done t2 s2 c4 ok\n\
done t1 s1 c5 data 6 616158596161\n\
ended t1\n\
wait out s2\n\
done t2 s2 c5 data 6 626258596262\n\
ended t2\n\
flush a1\n",
    },
    Row {
        name: "two files that are made, the last task first",
        image: Image::Fresh(1024),
        scripts: "\
script\n\
begin\n\
create /a\n\
fill /a 0 16384 97\n\
write /a 8192 XY\n\
read /a 8190 6\n\
end\n\
commit\n\
script\n\
begin\n\
create /b\n\
fill /b 0 16384 98\n\
write /b 8192 XY\n\
read /b 8190 6\n\
end\n\
commit\n",
        pushed: "",
        way: NEWEST,
        told: "\
begin t1 s1\n\
begin t2 s2\n\
wait out s1\n\
done t1 s1 c2 ok\n\
fuse a1 a2 n23\n\
wait out s2\n\
done t2 s2 c2 ok\n\
wait out s1\n\
done t1 s1 c3 ok\n\
wait out s2\n\
done t2 s2 c3 ok\n\
done t2 s2 c4 ok\n\
done t2 s2 c5 data 6 626258596262\n\
ended t2\n\
wait out s1\n\
done t1 s1 c4 ok\n\
wait out s1\n\
done t1 s1 c5 data 6 616158596161\n\
ended t1\n\
flush a1\n",
    },
    Row {
        name: "two transactions on one leaf",
        image: Image::Fresh(64),
        scripts: "\
script\n\
begin\n\
create /a\n\
write /a 0 x\n\
write /a 1 y\n\
end\n\
script\n\
begin\n\
stat /a\n\
end\n\
commit\n",
        pushed: "",
        way: ONE,
        told: "\
begin t1 s1\n\
begin t2 s2\n\
done t1 s1 c2 ok\n\
fuse a1 a2 n23\n\
done t2 s2 c2 attr 100644 1 0 0 0 0 0 0\n\
done t1 s1 c3 ok\n\
ended t2\n\
done t1 s1 c4 ok\n\
ended t1\n\
flush a1\n",
    },
    Row {
        name: "they wait for tasks, and a commit for a transaction",
        image: Image::Fresh(64),
        scripts: "\
script\n\
begin\n\
create /a\n\
write /a 0 x\n\
write /a 1 y\n\
write /a 2 z\n\
end\n\
script\n\
begin\n\
stat /a\n\
end\n\
commit\n",
        pushed: "",
        way: OLDEST,
        told: "\
begin t1 s1\n\
begin t2 s2\n\
wait out s1\n\
done t1 s1 c2 ok\n\
fuse a1 a2 n23\n\
wait out s2\n\
done t2 s2 c2 attr 100644 1 0 0 0 0 0 0\n\
ended t2\n\
wait out s1\n\
done t1 s1 c3 ok\n\
wait out s1\n\
done t1 s1 c4 ok\n\
wait open a1 t1\n\
done t1 s1 c5 ok\n\
ended t1\n\
flush a1\n",
    },
    Row {
        name: "a leaf that another task reads",
        image: Image::Fresh(64),
        scripts: "\
script\n\
stat /\n\
create /a\n\
script\n\
begin\n\
stat /\n\
end\n\
stat /a\n\
commit\n",
        pushed: "",
        way: OLDEST,
        told: "\
begin t1 s1\n\
begin t2 s2\n\
done t1 s1 c1 attr 40755 2 0 0 0 0 0 0\n\
ended t1\n\
wait held n23 s2\n\
done t2 s2 c2 attr 40755 2 0 0 0 0 0 0\n\
begin t3 s1\n\
ended t2\n\
wait out s1\n\
done t3 s1 c2 ok\n\
ended t3\n\
begin t4 s2\n\
fuse a3 a4 n23\n\
wait out s2\n\
done t4 s2 c4 attr 100644 1 0 0 0 0 0 0\n\
ended t4\n\
flush a2\n",
    },
    Row {
        name: "two empty scripts",
        image: Image::Fresh(64),
        scripts: "\
script\n\
script\n",
        pushed: "\
script\n\
script\n\
stat /\n\
commit\n",
        way: ONE,
        told: "\
finished\n\
begin t1 s2\n\
done t1 s2 c1 attr 40755 2 0 0 0 0 0 0\n\
ended t1\n\
finished\n\
flush a1\n",
    },
    Row {
        name: "commands that come to both scripts",
        image: Image::Fresh(64),
        scripts: "\
script\n\
script\n",
        pushed: "\
script\n\
create /a\n\
script\n\
stat /a\n\
commit\n",
        way: ONE,
        told: "\
finished\n\
begin t1 s1\n\
done t1 s1 c1 ok\n\
ended t1\n\
finished\n\
begin t2 s2\n\
fuse a1 a2 n23\n\
done t2 s2 c1 attr 100644 1 0 0 0 0 0 0\n\
ended t2\n\
finished\n\
flush a1\n",
    },
    Row {
        name: "a volume without enough free blocks",
        image: Image::Fresh(64),
        scripts: "\
script\n\
begin\n\
create /a\n\
create /b\n\
create /c\n\
create /d\n\
create /e\n\
fill /a 0 16384 97\n\
fill /b 0 16384 98\n\
fill /c 0 16384 99\n\
fill /d 0 16384 100\n\
fill /e 0 16384 101\n\
fill /e 0 6071 101\n\
fill /e 0 6070 101\n\
write /e 6070 x\n\
end\n\
stat /e\n\
fill /e 0 16384 101\n\
commit\n",
        pushed: "",
        way: ONE,
        told: "\
begin t1 s1\n\
done t1 s1 c2 ok\n\
done t1 s1 c3 ok\n\
done t1 s1 c4 ok\n\
done t1 s1 c5 ok\n\
done t1 s1 c6 ok\n\
done t1 s1 c7 ok\n\
done t1 s1 c8 ok\n\
done t1 s1 c9 ok\n\
done t1 s1 c10 ok\n\
refused t1 s1 c11 space 8 2\n\
refused t1 s1 c12 space 4 2\n\
done t1 s1 c13 ok\n\
refused t1 s1 c14 space 2 0\n\
ended t1\n\
begin t2 s1\n\
fuse a1 a2 n23\n\
done t2 s1 c16 attr 100644 1 6070 0 0 0 0 0\n\
ended t2\n\
begin t3 s1\n\
fuse a1 a3 n22\n\
refused t3 s1 c17 space 6 0\n\
ended t3\n\
flush a1\n",
    },
    Row {
        name: "what is refused as it is done",
        image: Image::Fresh(1024),
        scripts: "\
script\n\
begin\n\
mkdir /d\n\
create /d/f\n\
rename /d/f /d/f\n\
rename /d /d/x\n\
mkdir /e\n\
rename /e /d\n\
rmdir /\n\
unlink /d\n\
rmdir /d/f\n\
stat /q\n\
mkdir /d\n\
create /a/\n\
create /aaaaaaaaaaaaaaaxxxxxxxca\n\
create /aaaaaaaaaaaaaaaxxxxxxxbl\n",
        pushed: "",
        way: ONE,
        told: "\
begin t1 s1\n\
done t1 s1 c2 ok\n\
done t1 s1 c3 ok\n\
done t1 s1 c4 ok\n\
done t1 s1 c5 loop\n\
done t1 s1 c6 ok\n\
done t1 s1 c7 notempty\n\
done t1 s1 c8 loop\n\
done t1 s1 c9 isdir\n\
done t1 s1 c10 notdir\n\
done t1 s1 c11 absent\n\
done t1 s1 c12 exists\n\
done t1 s1 c13 name\n\
done t1 s1 c14 ok\n\
done t1 s1 c15 clash aaaaaaaaaaaaaaaxxxxxxxca\n\
ended t1\n\
finished\n",
    },
    Row {
        name: "a damaged volume",
        image: Image::Damaged,
        scripts: "\
script\n\
stat /\n\
begin\n\
stat /\n\
end\n",
        pushed: "",
        way: ONE,
        told: "\
refused t0 s1 c1 damaged 22\n\
begin t1 s1\n\
refused t1 s1 c3 damaged 22\n\
ended t1\n\
finished\n",
    },
    Row {
        name: "64 scripts",
        image: Image::Fresh(64),
        scripts: "\
script\nstat /\nbegin\nend\nbegin\nend\nscript\ncommit\nscript\ncommit\ncommit\ncommit\nscript\n\
commit\nscript\ncommit\ncommit\ncommit\ncommit\nscript\ncommit\nscript\ncommit\nscript\ncommit\n\
script\ncommit\nscript\ncommit\nscript\ncommit\ncommit\ncommit\nscript\ncommit\nscript\ncommit\n\
commit\ncommit\ncommit\nscript\ncommit\nscript\ncommit\nscript\ncommit\nscript\ncommit\nscript\n\
commit\nscript\ncommit\ncommit\ncommit\nscript\ncommit\nscript\ncommit\ncommit\ncommit\ncommit\n\
script\ncommit\nscript\ncommit\nscript\ncommit\nscript\ncommit\nscript\ncommit\nscript\ncommit\n\
commit\ncommit\nscript\ncommit\nscript\ncommit\ncommit\ncommit\ncommit\nscript\ncommit\nscript\n\
commit\nscript\ncommit\nscript\ncommit\nscript\ncommit\nscript\ncommit\ncommit\ncommit\nscript\n\
commit\nscript\ncommit\ncommit\ncommit\ncommit\nscript\ncommit\nscript\ncommit\nscript\ncommit\n\
script\ncommit\nscript\ncommit\nscript\ncommit\ncommit\ncommit\nscript\ncommit\nscript\ncommit\n\
commit\ncommit\ncommit\nscript\ncommit\nscript\ncommit\nscript\ncommit\nscript\ncommit\nscript\n\
commit\nscript\ncommit\ncommit\ncommit\nscript\ncommit\nscript\ncommit\ncommit\ncommit\ncommit\n\
script\ncommit\nscript\ncommit\nscript\ncommit\nscript\ncommit\nscript\ncommit\nscript\ncommit\n\
commit\ncommit\nscript\ncommit\nscript\ncommit\ncommit\ncommit\ncommit\nscript\ncommit\nscript\n\
commit\nscript\ncommit\ncommit\nstat /\nbegin\nend\n",
        pushed: "",
        way: OLDEST,
        told: "\
begin t1 s1\nacked s2 t0\nacked s3 t0\nacked s4 t0\nacked s5 t0\nacked s6 t0\nacked s7 t0\n\
acked s8 t0\nacked s9 t0\nacked s10 t0\nacked s11 t0\nacked s12 t0\nacked s13 t0\nacked s14 t0\n\
acked s15 t0\nacked s16 t0\nacked s17 t0\nacked s18 t0\nacked s19 t0\nacked s20 t0\n\
acked s21 t0\nacked s22 t0\nacked s23 t0\nacked s24 t0\nacked s25 t0\nacked s26 t0\n\
acked s27 t0\nacked s28 t0\nacked s29 t0\nacked s30 t0\nacked s31 t0\nacked s32 t0\n\
acked s33 t0\nacked s34 t0\nacked s35 t0\nacked s36 t0\nacked s37 t0\nacked s38 t0\n\
acked s39 t0\nacked s40 t0\nacked s41 t0\nacked s42 t0\nacked s43 t0\nacked s44 t0\n\
acked s45 t0\nacked s46 t0\nacked s47 t0\nacked s48 t0\nacked s49 t0\nacked s50 t0\n\
acked s51 t0\nacked s52 t0\nacked s53 t0\nacked s54 t0\nacked s55 t0\nacked s56 t0\n\
acked s57 t0\nacked s58 t0\nacked s59 t0\nacked s60 t0\nacked s61 t0\nacked s62 t0\n\
acked s63 t0\nacked s64 t0\nacked s3 t0\nacked s5 t0\nacked s11 t0\nacked s13 t0\nacked s19 t0\n\
acked s21 t0\nacked s27 t0\nacked s29 t0\nacked s35 t0\nacked s37 t0\nacked s43 t0\n\
acked s45 t0\nacked s51 t0\nacked s53 t0\nacked s59 t0\nacked s61 t0\nacked s64 t0\n\
acked s3 t0\nacked s5 t0\nacked s11 t0\nacked s13 t0\nacked s19 t0\nacked s21 t0\nacked s27 t0\n\
acked s29 t0\nacked s35 t0\nacked s37 t0\nacked s43 t0\nacked s45 t0\nacked s51 t0\n\
acked s53 t0\nacked s59 t0\nacked s61 t0\nbegin t2 s64\ndone t1 s1 c1 attr 40755 2 0 0 0 0 0 0\n\
ended t1\nbegin t3 s1\nended t3\nbegin t4 s1\nacked s5 t0\nacked s13 t0\nacked s21 t0\n\
acked s29 t0\nacked s37 t0\nacked s45 t0\nacked s53 t0\nacked s61 t0\nended t4\nwait out s64\n\
done t2 s64 c3 attr 40755 2 0 0 0 0 0 0\nended t2\nbegin t5 s64\nended t5\nfinished\n",
    },
];

// All that is told of a row.
fn told(
    core: &mut Core<MemoryDevice, Unnamed>,
    alloc: Global,
    row: &Row,
    log: &mut Log,
) -> Result<(), Fail> {
    run(core, alloc, row.way, log)?;
    run_pushed(core, alloc, row.pushed, row.way, log)
}

// A row runs. What is told up to a fault comes with it.
fn runs(alloc: Global, row: &Row, log: &mut Log) -> Result<(), Fail> {
    let mut core = opened(alloc, row.image, row.scripts)?;
    let done = told(&mut core, alloc, row, log);
    let _ = core.into_device();
    done
}

#[test]
fn jobs_run_up_to_a_flush(rt: HostRuntime) -> Result<(), Fail> {
    for row in &ROWS {
        let mut log = Log::new(rt.alloc());
        runs(rt.alloc(), row, &mut log)?;
        let told = String::from_utf8_lossy(rt.alloc(), log.lines.as_slice())?;
        assert_eq!(&rt; told.as_str(), row.told, "{}", row.name);
    }
    Ok(())
}
