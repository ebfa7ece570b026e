//! Blocks that are held back.

ghost use Rattle.std.specs.Prelude.{◌≡◌, ◌<◌, All, count_by, nat_lt, ◌==◌};
ghost use Rattle.r4_outside.specs.Device.{Reads};
ghost use Rattle.r4_devices.specs.Stop.{HeldAt, Idles, Holds, is_held, is_wanted};

use crate::calls::Calls;
use crate::torn::Held;
use r4_base::{Block, BlockNo, Memory};
use std::alloc::Global;

// Is block `at` held back?
fn has(held: &[Held], at: u64) -> bool
    ensures { result ≡ is_held at held.now }
{
    held.iter().any(|h| h.at == at)
}

// How many of the blocks are below block `at`.
fn place(held: &[Held], at: u64) -> usize
    ensures { result ≡ count_by (λ h. nat_lt h.at at) held.now }
{
    held.iter().filter(|h| h.at < at).count()
}

// Keeps the content of a block that is to be written, where there is a pick. Whether it could be read.
pub fn hold<D: Calls>(
    alloc: Global,
    dev: &mut D,
    at: BlockNo,
    pick: Option<u64>,
    held: &mut Vec<Held>,
) -> Result<bool, Memory>
    requires below { at.0 < (D.state dev.old).blocks }
    requires held { All (HeldAt (D.state dev.old)) held.old.items }
    ensures idles { Idles (D.state dev.old) (D.state dev.new) }
    ensures held { All (HeldAt (D.state dev.new)) held.new.items }
    ensures holds { let wanted = is_wanted pick at.0 held.old.items in
        Holds wanted at.0 (D.state dev.old) held.old.items result held.new.items (D.state dev.new) }
{
    if pick.is_none() || has(held, at.0) {
        return Ok(true);
    }
    let mut block = Block::zeroed(alloc)?;
    let Ok(()) = dev.get(at, &mut block) else {
        return Ok(false);
    };
    let place = place(held, at.0);
    held.insert(place, Held { at: at.0, block })?;
    Ok(true)
}
