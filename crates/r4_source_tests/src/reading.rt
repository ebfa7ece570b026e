//! Texts that are read whole, reads that fail, and a text that is too long.

use r4_base::Memory;
use r4_outside::{MemorySource, Source};
use r4_script::{ParseFault, ScriptFault, What, parse};
use r4_source::{ReadFault, read_text};
use std::alloc::Global;
use std::test::Fail;

// So many bytes, of which those that are a piece apart differ.
fn pattern(alloc: Global, count: usize) -> Result<Vec<u8>, Memory> {
    let mut bytes = Vec::with_capacity(alloc, count)?;
    for i in 0..count {
        bytes.push((i % 251) as u8)?;
    }
    Ok(bytes)
}

// Whether a source of these bytes gives just these.
fn is_read(alloc: Global, bytes: &[u8]) -> Result<bool, Memory> {
    let mut source = MemorySource::new(alloc, bytes)?;
    Ok(match read_text(alloc, &mut source) {
        Ok(text) => text.as_slice() == bytes,
        Err(_) => false,
    })
}

#[test]
fn texts_are_read_whole(rt: HostRuntime) -> Result<(), Fail> {
    for count in [0, 1, 65_535, 65_536, 65_537, 200_000] {
        let bytes = pattern(rt.alloc(), count)?;
        assert!(rt; is_read(rt.alloc(), &bytes)?, "{count} bytes");
    }
    Ok(())
}

// Why so many bytes are not read, where the read of this number fails.
fn fault(alloc: Global, count: usize, call: u64) -> Result<Option<ReadFault>, Memory> {
    let bytes = pattern(alloc, count)?;
    let mut source = MemorySource::new(alloc, &bytes)?;
    source.fail(alloc, call)?;
    Ok(read_text(alloc, &mut source).err())
}

#[test]
fn a_read_that_fails_is_told(rt: HostRuntime) -> Result<(), Fail> {
    let failed = Some(ReadFault::Source { faults: 1 });
    let table = [
        (0, 1, failed),
        (7, 1, failed),
        (7, 2, failed),
        (7, 3, None),
        (65_537, 2, failed),
        (65_537, 3, failed),
        (65_537, 4, None),
    ];
    for (count, call, wanted) in table {
        assert_eq!(rt;
            fault(rt.alloc(), count, call)?,
            wanted,
            "{count} bytes, {call}"
        );
    }
    Ok(())
}

// How many bytes are read of a comment of so many, how many of them the source has still, and the
// fault of what was read.
fn read_comment(
    alloc: Global,
    count: usize,
) -> Result<Option<(usize, usize, Option<ParseFault>)>, Memory> {
    let mut source = MemorySource::new(alloc, &vec![in alloc; b'#'; count]?)?;
    let Ok(text) = read_text(alloc, &mut source) else {
        return Ok(None);
    };
    let Ok(left) = source.read(&mut [0; 16]) else {
        return Ok(None);
    };
    Ok(Some((text.len(), left, parse(alloc, &text).err())))
}

#[test]
fn a_text_that_is_too_long_is_cut_off(rt: HostRuntime) -> Result<(), Fail> {
    let long = ScriptFault {
        line: 1,
        column: 16_777_217,
        what: What::Long,
    };
    let table = [
        (16_777_216, (16_777_216, 0, None)),
        (16_777_217, (16_777_217, 0, Some(ParseFault::Script(long)))),
        (16_777_227, (16_777_217, 10, Some(ParseFault::Script(long)))),
    ];
    for (count, wanted) in table {
        assert_eq!(rt;
            read_comment(rt.alloc(), count)?,
            Some(wanted),
            "{count} bytes"
        );
    }
    Ok(())
}
