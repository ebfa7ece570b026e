//! Edits that lie across bytes of a file and the attributes of the root.

ghost use Rattle.std.specs.Prelude.{◌≡◌, IfOk};
ghost use Rattle.r4_base.specs.Key.{rank};
ghost use Rattle.r4_base.specs.Volume.{byte_rank};
ghost use Rattle.r4_content.specs.Held.{edits_of};
ghost use Rattle.r4_build_testing.specs.Commands.{file, mixed};

use crate::small::{FILE, ROOT};
use r4_base::{Bytes, Key, Value};
use r4_cell::least;
use r4_content::{ByteRun, Edits, FilledInterval, Interval, Reply};
use std::alloc::Global;
use std::test::Fail;

/// The key of a byte of the file "a".
#[tactic(auto, unfolding(r4_base::specs::Key::rank))]
pub fn byte(offset: u64) -> Key
    ensures { rank result ≡ byte_rank file offset }
{
    Key {
        el: [676, FILE.ordering, 65_536, offset],
    }
}

/// Bytes 2 to 19 go, bytes 4 to 7 become 7, bytes 10 to 14 are others, and the root gets attributes.
pub fn mixed_edits(alloc: Global) -> Result<Edits, Fail>
    ensures { IfOk result (λ e. edits_of e ≡ mixed) }
{
    let mut cuts = Vec::new(alloc);
    cuts.push(Interval {
        from: byte(2),
        to: byte(20),
    })?;
    let mut fills = Vec::new(alloc);
    fills.push(FilledInterval {
        from: byte(4),
        to: byte(8),
        byte: 7,
    })?;
    let bytes = Bytes::from_vec(alloc, Vec::from_array(alloc, *b"hello")?)?;
    let mut runs = Vec::new(alloc);
    runs.push(ByteRun {
        from: byte(10),
        bytes,
    })?;
    let mut puts = Vec::new(alloc);
    puts.push((least(), Value::Attr(ROOT)))?;
    Ok(Edits {
        cuts,
        zeros: Vec::new(alloc),
        fills,
        runs,
        puts,
        reply: Reply::Okay,
    })
}
