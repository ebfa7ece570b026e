//! An offline command, over memory.

ghost use Rattle.r4_outside.specs.Device.{Goes};

use r4_offline::{Status, obey};
use r4_outside::{Device, MemorySink};
use r4_words::{Command, read_words};
use std::alloc::Global;
use std::test::Fail;

/// The words that replay an image.
pub static REPLAY: [&str; 2] = ["replay", "image"];

/// The words that list the root of an image.
pub static LIST: [&str; 2] = ["list", "image"];

/// Does the offline command that these words spell, and gives its status; other words fail.
pub fn call<D: Device>(
    alloc: Global,
    words: &[&str],
    dev: &mut D,
    out: &mut MemorySink,
) -> Result<u8, Fail>
    ensures { Goes (D.state dev.old) (D.state dev.new) }
{
    let mut owned = Vec::new(alloc);
    for word in words {
        owned.push(String::from_str(alloc, word)?)?;
    }
    match read_words(&owned) {
        Some(Command::Offline(command)) => {
            let Status { code } = obey(alloc, command, dev, out);
            Ok(code)
        }
        _ => Err(Fail::from("these words spell no offline command")),
    }
}
