//! Names, links and moves: what is printed, and what is listed then.

use r4_outside::MemoryDevice;
use r4_run_testing::{LIST, RUN, Row, fresh, printed};
use std::alloc::Global;
use std::process::Abort;
use std::sync::Wait;
use std::test::Fail;
use std::thread::Threads;

static ROWS: [Row; 6] = [
    Row {
        name: "names of all that a path may have",
        text: "\
script\n\
begin\n\
create /!\"#$%&'()*+,-.0123456789:;<=>?@ABCDEFGHIJKLMNOPQRSTUVWXYZ[\\]^_`abcdefghijklmnopqrstuvwxyz{|}~\n\
create /größe\n\
names /\n\
end\n",
        status: 0,
        told: "\
begin t1 s1\n\
done t1 s1 c2 ok\n\
done t1 s1 c3 ok\n\
done t1 s1 c4 names 2 größe \
!\"#$%&'()*+,-.0123456789:;<=>?@ABCDEFGHIJKLMNOPQRSTUVWXYZ[\\]^_`abcdefghijklmnopqrstuvwxyz{|}~\n\
ended t1\n\
sealed a1\n\
committed a1\n",
        listed: "\
d 0755 2 0 0 2 /\n\
f 0644 1 0 0 0 /größe\n\
f 0644 1 0 0 0 /\
!\"#$%&'()*+,-.0123456789:;<=>?@ABCDEFGHIJKLMNOPQRSTUVWXYZ[\\]^_`abcdefghijklmnopqrstuvwxyz{|}~\n",
    },
    Row {
        name: "words that are no names",
        text: "\
script\n\
begin\n\
create /.\n\
create /..\n\
create //\n\
create /a/\n\
create /a//b\n\
mkdir /...\n\
create /.../.a\n\
stat /.../../.a\n\
rename /... /.\n\
link /.../.a /.../..\n\
names /...\n\
end\n",
        status: 0,
        told: "\
begin t1 s1\n\
done t1 s1 c2 name\n\
done t1 s1 c3 name\n\
done t1 s1 c4 name\n\
done t1 s1 c5 name\n\
done t1 s1 c6 name\n\
done t1 s1 c7 ok\n\
done t1 s1 c8 ok\n\
done t1 s1 c9 name\n\
done t1 s1 c10 name\n\
done t1 s1 c11 name\n\
done t1 s1 c12 names 1 .a\n\
ended t1\n\
sealed a1\n\
committed a1\n",
        listed: "\
d 0755 3 0 0 1 /\n\
d 0755 2 0 0 1 /...\n\
f 0644 1 0 0 0 /.../.a\n",
    },
    Row {
        name: "two names of one key",
        text: "\
script\n\
begin\n\
create /aaaaaaaaaaaaaaaxxxxxxxca\n\
mkdir /aaaaaaaaaaaaaaaxxxxxxxbl\n\
mkdir /d\n\
create /d/aaaaaaaaaaaaaaaxxxxxxxbl\n\
create /x\n\
link /x /aaaaaaaaaaaaaaaxxxxxxxbl\n\
rename /x /aaaaaaaaaaaaaaaxxxxxxxbl\n\
stat /aaaaaaaaaaaaaaaxxxxxxxbl\n\
unlink /aaaaaaaaaaaaaaaxxxxxxxbl\n\
names /\n\
rename /aaaaaaaaaaaaaaaxxxxxxxca /y\n\
rename /x /aaaaaaaaaaaaaaaxxxxxxxbl\n\
create /aaaaaaaaaaaaaaaxxxxxxxca\n\
end\n",
        status: 0,
        told: "\
begin t1 s1\n\
done t1 s1 c2 ok\n\
done t1 s1 c3 clash aaaaaaaaaaaaaaaxxxxxxxca\n\
done t1 s1 c4 ok\n\
done t1 s1 c5 ok\n\
done t1 s1 c6 ok\n\
done t1 s1 c7 clash aaaaaaaaaaaaaaaxxxxxxxca\n\
done t1 s1 c8 clash aaaaaaaaaaaaaaaxxxxxxxca\n\
done t1 s1 c9 absent\n\
done t1 s1 c10 absent\n\
done t1 s1 c11 names 3 d x aaaaaaaaaaaaaaaxxxxxxxca\n\
done t1 s1 c12 ok\n\
done t1 s1 c13 ok\n\
done t1 s1 c14 clash aaaaaaaaaaaaaaaxxxxxxxbl\n\
ended t1\n\
sealed a1\n\
committed a1\n",
        listed: "\
d 0755 3 0 0 3 /\n\
d 0755 2 0 0 1 /d\n\
f 0644 1 0 0 0 /d/aaaaaaaaaaaaaaaxxxxxxxbl\n\
f 0644 1 0 0 0 /y\n\
f 0644 1 0 0 0 /aaaaaaaaaaaaaaaxxxxxxxbl\n",
    },
    Row {
        name: "two names of one file",
        text: "\
script\n\
begin\n\
create /a\n\
write /a 0 hello\n\
link /a /b\n\
stat /b\n\
write /b 5 !\n\
read /a 0 9\n\
rename /a /b\n\
link /a /b\n\
names /\n\
unlink /a\n\
stat /b\n\
unlink /b\n\
read /b 0 9\n\
link /b /c\n\
link / /c\n\
unlink /\n\
end\n",
        status: 0,
        told: "\
begin t1 s1\n\
done t1 s1 c2 ok\n\
done t1 s1 c3 ok\n\
done t1 s1 c4 ok\n\
done t1 s1 c5 attr 100644 2 5 0 0 0 0 0\n\
done t1 s1 c6 ok\n\
done t1 s1 c7 data 6 68656c6c6f21\n\
done t1 s1 c8 ok\n\
done t1 s1 c9 exists\n\
done t1 s1 c10 names 2 a b\n\
done t1 s1 c11 ok\n\
done t1 s1 c12 attr 100644 1 6 0 0 0 0 0\n\
done t1 s1 c13 ok\n\
done t1 s1 c14 absent\n\
done t1 s1 c15 absent\n\
done t1 s1 c16 isdir\n\
done t1 s1 c17 isdir\n\
ended t1\n\
sealed a1\n\
committed a1\n",
        listed: "d 0755 2 0 0 0 /\n",
    },
    Row {
        name: "ties and refusals",
        text: "\
script\n\
begin\n\
mkdir /d\n\
create /d/f\n\
rename /d/f /d/f\n\
rename /d /d/x\n\
mkdir /e\n\
rename /e /d\n\
rmdir /\n\
unlink /d\n\
rmdir /d/f\n\
stat /q\n\
mkdir /d\n\
end\n",
        status: 0,
        told: "\
begin t1 s1\n\
done t1 s1 c2 ok\n\
done t1 s1 c3 ok\n\
done t1 s1 c4 ok\n\
done t1 s1 c5 loop\n\
done t1 s1 c6 ok\n\
done t1 s1 c7 notempty\n\
done t1 s1 c8 loop\n\
done t1 s1 c9 isdir\n\
done t1 s1 c10 notdir\n\
done t1 s1 c11 absent\n\
done t1 s1 c12 exists\n\
ended t1\n\
sealed a1\n\
committed a1\n",
        listed: "\
d 0755 4 0 0 2 /\n\
d 0755 2 0 0 1 /d\n\
f 0644 1 0 0 0 /d/f\n\
d 0755 2 0 0 0 /e\n",
    },
    Row {
        name: "moves onto what is there",
        text: "\
script\n\
begin\n\
create /a\n\
write /a 0 A\n\
create /b\n\
rename /a /b\n\
read /b 0 9\n\
mkdir /d\n\
mkdir /e\n\
create /e/f\n\
rename /d /b\n\
rename /b /d\n\
rename /d /e\n\
rename /e /d\n\
rename /d/f /g\n\
rename /g /q/g\n\
rename /g /b/g\n\
rename / /x\n\
rename /b /\n\
names /\n\
stat /\n\
end\n",
        status: 0,
        told: "\
begin t1 s1\n\
done t1 s1 c2 ok\n\
done t1 s1 c3 ok\n\
done t1 s1 c4 ok\n\
done t1 s1 c5 ok\n\
done t1 s1 c6 data 1 41\n\
done t1 s1 c7 ok\n\
done t1 s1 c8 ok\n\
done t1 s1 c9 ok\n\
done t1 s1 c10 notdir\n\
done t1 s1 c11 isdir\n\
done t1 s1 c12 notempty\n\
done t1 s1 c13 ok\n\
done t1 s1 c14 ok\n\
done t1 s1 c15 absent\n\
done t1 s1 c16 notdir\n\
done t1 s1 c17 loop\n\
done t1 s1 c18 loop\n\
done t1 s1 c19 names 3 b d g\n\
done t1 s1 c20 attr 40755 3 3 0 0 0 0 0\n\
ended t1\n\
sealed a1\n\
committed a1\n",
        listed: "\
d 0755 3 0 0 3 /\n\
f 0644 1 0 0 1 /b\n\
d 0755 2 0 0 0 /d\n\
f 0644 1 0 0 0 /g\n",
    },
];

// Ends the test unless these bytes are the text.
fn is_text<X: Abort>(
    rt: &X,
    alloc: Global,
    bytes: &[u8],
    text: &str,
    name: &str,
) -> Result<(), Fail> {
    let told = String::from_utf8_lossy(alloc, bytes)?;
    assert_eq!(rt; told.as_str(), text, "{name}");
    Ok(())
}

// Ends the test unless the run prints what the row says.
fn runs_so<X: Abort + Threads + Wait + Sync>(
    rt: &X,
    alloc: Global,
    dev: &mut MemoryDevice,
    row: &Row,
) -> Result<(), Fail> {
    let told = printed(rt, alloc, &RUN, dev, row.text, row.status)?;
    is_text(rt, alloc, &told, row.told, row.name)
}

// Ends the test unless the volume is listed as the row says.
fn is_listed<X: Abort + Threads + Wait + Sync>(
    rt: &X,
    alloc: Global,
    dev: &mut MemoryDevice,
    row: &Row,
) -> Result<(), Fail> {
    let listed = printed(rt, alloc, &LIST, dev, "", 0)?;
    is_text(rt, alloc, &listed, row.listed, row.name)
}

#[test]
fn names_are_served(rt: HostRuntime) -> Result<(), Fail> {
    for row in &ROWS {
        let mut dev = fresh(&rt, rt.alloc(), 1024)?;
        runs_so(&rt, rt.alloc(), &mut dev, row)?;
        is_listed(&rt, rt.alloc(), &mut dev, row)?;
    }
    Ok(())
}
