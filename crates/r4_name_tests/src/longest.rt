//! The longest name, and one that is too long.

use r4_outside::MemoryDevice;
use r4_run_testing::{LIST, RUN, fresh, printed};
use std::alloc::Global;
use std::process::Abort;
use std::sync::Wait;
use std::test::Fail;
use std::thread::Threads;

// A name of so many bytes.
fn name_of(alloc: Global, bytes: u32) -> Result<String, Fail> {
    let mut name = String::new(alloc);
    for _ in 0..bytes {
        name.push_str("n")?;
    }
    Ok(name)
}

// Ends the test unless the program prints this.
fn prints<X: Abort + Threads + Wait + Sync>(
    rt: &X,
    alloc: Global,
    words: &[&str],
    dev: &mut MemoryDevice,
    text: &str,
    wanted: &str,
) -> Result<(), Fail> {
    let told = printed(rt, alloc, words, dev, text, 0)?;
    assert_eq!(rt; told.as_slice(), wanted.as_bytes());
    Ok(())
}

// Of a name and one that is a byte longer, the first is taken.
fn runs_so<X: Abort + Threads + Wait + Sync>(
    rt: &X,
    alloc: Global,
    dev: &mut MemoryDevice,
    name: &str,
) -> Result<(), Fail> {
    let text = format!(in alloc;
        "script\nbegin\ncreate /{name}\ncreate /{name}n\nstat /{name}n\nnames /\nend\n"
    )?;
    let told = format!(in alloc;
        "begin t1 s1\ndone t1 s1 c2 ok\ndone t1 s1 c3 name\ndone t1 s1 c4 name\n\
        done t1 s1 c5 names 1 {name}\nended t1\nsealed a1\ncommitted a1\n"
    )?;
    prints(rt, alloc, &RUN, dev, text.as_str(), told.as_str())
}

// It is listed.
fn is_listed<X: Abort + Threads + Wait + Sync>(
    rt: &X,
    alloc: Global,
    dev: &mut MemoryDevice,
    name: &str,
) -> Result<(), Fail> {
    let listed = format!(in alloc; "d 0755 2 0 0 1 /\nf 0644 1 0 0 0 /{name}\n")?;
    prints(rt, alloc, &LIST, dev, "", listed.as_str())
}

#[test]
fn longest_name_is_taken(rt: HostRuntime) -> Result<(), Fail> {
    let mut dev = fresh(&rt, rt.alloc(), 64)?;
    let name = name_of(rt.alloc(), 255)?;
    runs_so(&rt, rt.alloc(), &mut dev, name.as_str())?;
    is_listed(&rt, rt.alloc(), &mut dev, name.as_str())
}
