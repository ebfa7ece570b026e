//! Scripts that have nothing in common, and one script on many threads.

use crate::files::{IN_EXTENTS, IN_TAILS, prints, two_files};
use r4_run_testing::{LIST, RUN, fresh};
use std::test::Fail;

const WRITES: &str = "\
script\n\
write /a 8192 XY\n\
commit\n\
script\n\
write /b 8192 XY\n\
commit\n";

const TOLD: &str = "\
begin t1 s1\n\
done t1 s1 c1 ok\n\
ended t1\n\
begin t2 s2\n\
done t2 s2 c1 ok\n\
ended t2\n\
sealed a1\n\
committed a1\n\
acked s1 t1\n\
sealed a2\n\
committed a2\n\
acked s2 t2\n";

const READS: &str = "\
script\n\
begin\n\
read /a 8190 6\n\
read /b 8190 6\n\
end\n";

const READ: &str = "\
begin t1 s1\n\
done t1 s1 c2 data 6 616158596161\n\
done t1 s1 c3 data 6 626258596262\n\
ended t1\n\
sealed a1\n\
committed a1\n";

// Each script has an atom of its own, and each commits its own.
#[test]
fn scripts_of_two_files_do_not_fuse(rt: HostRuntime) -> Result<(), Fail> {
    let mut dev = two_files(&rt, rt.alloc(), IN_TAILS)?;
    prints(&rt, rt.alloc(), &RUN, &mut dev, WRITES, TOLD)?;
    prints(&rt, rt.alloc(), &RUN, &mut dev, READS, READ)
}

const WRITES_FIRST: &str = "\
script\n\
write /a 0 XY\n\
commit\n\
script\n\
write /b 0 XY\n\
commit\n";

const READS_FIRST: &str = "\
script\n\
begin\n\
read /a 0 4\n\
read /b 0 4\n\
end\n";

const READ_FIRST: &str = "\
begin t1 s1\n\
done t1 s1 c2 data 4 58596161\n\
done t1 s1 c3 data 4 58596262\n\
ended t1\n\
sealed a1\n\
committed a1\n";

// In extents the first bytes do not lie beside the other file's either.
#[test]
fn scripts_of_two_large_files_do_not_fuse(rt: HostRuntime) -> Result<(), Fail> {
    let mut dev = two_files(&rt, rt.alloc(), IN_EXTENTS)?;
    prints(&rt, rt.alloc(), &RUN, &mut dev, WRITES_FIRST, TOLD)?;
    prints(&rt, rt.alloc(), &RUN, &mut dev, READS_FIRST, READ_FIRST)
}

static FOUR: [&str; 4] = ["run", "image", "--threads", "4"];

const ORDINARY: &str = "\
script\n\
mkdir /etc\n\
create /etc/hosts\n\
write /etc/hosts 0 127.0.0.1 localhost\n\
commit\n";

const ORDINARY_TOLD: &str = "\
begin t1 s1\n\
done t1 s1 c1 ok\n\
ended t1\n\
begin t2 s1\n\
fuse a1 a2 n23\n\
done t2 s1 c2 ok\n\
ended t2\n\
begin t3 s1\n\
fuse a1 a3 n23\n\
done t3 s1 c3 ok\n\
ended t3\n\
sealed a1\n\
committed a1\n\
acked s1 t3\n";

const ORDINARY_LISTED: &str = "\
d 0755 3 0 0 1 /\n\
d 0755 2 0 0 1 /etc\n\
f 0644 1 0 0 19 /etc/hosts\n";

// One script is told the same by four threads as by one.
#[test]
fn one_script_runs_by_four_threads(rt: HostRuntime) -> Result<(), Fail> {
    let mut dev = fresh(&rt, rt.alloc(), 64)?;
    prints(&rt, rt.alloc(), &FOUR, &mut dev, ORDINARY, ORDINARY_TOLD)?;
    prints(&rt, rt.alloc(), &LIST, &mut dev, "", ORDINARY_LISTED)
}
