//! A file as a device, what is said on standard error, the buffer of standard output, and faulty words.

use crate::complaints::{of_device, of_image, of_memory, of_size};
use crate::streams::OutputText;
use r4_base::{Block, BlockNo};
use r4_devices::{FileCall, FileDevice, Trouble};
use r4_outside::{Device, Failed, MemoryDevice, MemorySink, MemorySource, OpenGate, Sink, Unnamed};
use r4_top::{Status, r4_main};
use std::alloc::Global;
use std::test::Fail;
use std::{fs, io, process};

#[test]
fn a_file_keeps_its_blocks(rt: HostRuntime) -> Result<(), Fail> {
    let alloc = rt.alloc();
    let number = process::id(rt.process());
    let path = format!(in alloc; "/tmp/r4_tool_test_{number}.img")?;
    let name = path.as_str();
    fs::write(&rt, name, vec![in alloc; 1u8; 2 * 4096 + 1]?.as_slice())?;
    let mut dev = FileDevice::open(&rt, name);
    let Ok(blocks) = dev.blocks() else {
        return Err(Fail::from("the file was not opened"));
    };
    assert_eq!(rt; blocks, 2);
    let mut block = Block::zeroed(alloc)?;
    assert_eq!(rt; dev.write(BlockNo(1), &block), Ok(()));
    assert_eq!(rt; dev.sync(), Ok(()));
    assert_eq!(rt; dev.read(BlockNo(0), &mut block), Ok(()));
    assert!(rt; block.bytes().iter().all(|&byte| byte == 1));
    assert_eq!(rt; dev.read(BlockNo(1), &mut block), Ok(()));
    assert!(rt; block.bytes().iter().all(|&byte| byte == 0));
    assert_eq!(rt; (dev.clock(), dev.faults()), (2, 0));

    fs::remove_file(&rt, name)?;
    let mut none = FileDevice::open(&rt, name);
    assert_eq!(rt; none.blocks(), Err(Failed));
    assert_eq!(rt; none.sync(), Err(Failed));
    assert_eq!(rt; (none.clock(), none.faults()), (1, 2));
    Ok(())
}

// Calls that fail with an error of the system, by its number, and what is said of them.
static TROUBLES: [(FileCall, i32, &str); 5] = [
    (FileCall::Open, 2, "No such file or directory"),
    (
        FileCall::Read(BlockNo(7)),
        5,
        "read of block 7: Input/output error",
    ),
    (
        FileCall::Write(BlockNo(23)),
        28,
        "write of block 23: No space left on device",
    ),
    (
        FileCall::Write(BlockNo(16)),
        13,
        "write of block 16: Permission denied",
    ),
    (FileCall::Sync, 5, "sync: Input/output error"),
];

#[test]
fn failed_calls_are_told(rt: HostRuntime) -> Result<(), Fail> {
    for &(call, number, wanted) in &TROUBLES {
        let error = io::Error::from_raw_os_error(number);
        let said = of_device(rt.alloc(), Some(Trouble { call, error }))?;
        assert_eq!(rt; said.as_str(), wanted);
    }
    Ok(())
}

// What was printed last, and what is said of it.
static REFUSED: [(&[u8], &str); 4] = [
    (
        b"image: block 901: record magic\n",
        "block 901: it is not a record of the log",
    ),
    (
        b"\xff/f\nimage: block 3: key range\n",
        "block 3: it has a key outside of its range, or is named for two ranges",
    ),
    (
        b"image: block 1: range\nimage: block 2: dir\n",
        "block 2: entries of a directory in it are wrong",
    ),
    (b"image: block 901: ", "the image is refused"),
];

#[test]
fn refused_images_are_told(rt: HostRuntime) -> Result<(), Fail> {
    for &(printed, wanted) in &REFUSED {
        let said = of_image(rt.alloc(), printed)?;
        assert_eq!(rt; said.as_str(), wanted);
    }
    Ok(())
}

#[test]
fn sizes_are_told(rt: HostRuntime) -> Result<(), Fail> {
    let said = of_size(rt.alloc(), 63)?;
    let wanted = "it has 63 blocks of 4096 bytes, and a volume has from 64 to 1048576";
    assert_eq!(rt; said.as_str(), wanted);
    Ok(())
}

#[test]
fn wanting_memory_is_told(rt: HostRuntime) -> Result<(), Fail> {
    assert_eq!(rt; of_memory(), "there is not enough memory");
    Ok(())
}

// A writer with room for three bytes takes four only until they are flushed.
#[test]
fn text_is_gathered(rt: HostRuntime) -> Result<(), Fail> {
    let mut room = [0u8; 3];
    let mut out = OutputText::new(rt.alloc(), room.as_mut_slice())?;
    assert_eq!(rt; out.write(b"memo"), Ok(()));
    assert_eq!(rt; out.last(), b"memo".as_slice());
    assert_eq!(rt; out.flush(), Err(Failed));
    assert_eq!(rt; out.faults(), 1);
    Ok(())
}

// Words that spell no command, and what is printed then.
static FAULTY_WORDS: [&[&str]; 5] = [
    &[],
    &["replay"],
    &["replay", "img", "more"],
    &["run", "img", "--threads", "17"],
    &["frob", "img"],
];

const USAGE: &[u8] = b"usage: r4_tool replay, mkfs, run, list or check, then IMAGE and options\n";

// The words, each with memory of its own.
fn owned(alloc: Global, words: &[&str]) -> Result<Vec<String>, Fail> {
    let mut all = Vec::new(alloc);
    for word in words {
        all.push(String::from_str(alloc, word)?)?;
    }
    Ok(all)
}

#[test]
fn faulty_words_are_refused(rt: HostRuntime) -> Result<(), Fail> {
    let alloc = rt.alloc();
    let mut dev = MemoryDevice::new(alloc, 64)?;
    let mut script = MemorySource::new(alloc, b"")?;
    for words in &FAULTY_WORDS {
        let words = owned(alloc, words)?;
        let mut out = MemorySink::new(alloc, 100)?;
        let Status { code } = r4_main(
            &rt,
            alloc,
            &words,
            &mut dev,
            &mut script,
            &mut out,
            &OpenGate,
            Unnamed::new(),
        );
        assert_eq!(rt; code, 2);
        assert_eq!(rt; out.written(), USAGE);
    }
    assert_eq!(rt; dev.clock(), 0);
    Ok(())
}
