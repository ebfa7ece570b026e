//! What is done to a device at the stop.

ghost use Rattle.std.specs.Prelude.{◌≡◌, ◌<◌, ◌≤◌, All};
ghost use Rattle.r4_outside.specs.Mix.{is_marked};
ghost use Rattle.r4_devices.specs.Picks.{Changes, put_over, put_back};

use crate::calls::Calls;
use crate::picks::{picks, skip_of};
use r4_base::{Block, BlockNo};
use r4_outside::mix;

/// The device's clock right after the torn write, and what the stopped device counts from then on.
#[derive(Clone, Copy)]
pub struct Stop {
    pub cut: u64,
    pub clock: u64,
    pub faults: u64,
}

/// A block, as it read before the first write since the last good sync.
#[derive(Drop)]
pub struct Held {
    pub at: u64,
    pub block: Block,
}

ghost use Rattle.r4_devices.specs.Stop.{HeldAt, Keeps, Tears, Halts, stop_here};

// Writes the sectors whose bits are set.
fn tear_write<D: Calls>(dev: &mut D, at: BlockNo, from: &Block, mask: u8, room: &mut Block)
    requires { at.0 < (D.state dev.old).blocks }
    ensures tears { Tears mask at.0 from.now (D.state dev.old) (D.state dev.new) }
    ensures changes { Changes (put_over (is_marked mask) at.0 from.now) (D.state dev.old) (D.state dev.new) }
{
    if mask == 0 {
        return;
    }
    let Ok(()) = dev.get(at, room) else {
        return;
    };
    mix(room, from, mask);
    let _ = dev.put(at, room);
}

// Puts the sectors of a block back whose bits are set.
fn put_one_back<D: Calls>(dev: &mut D, held: &Held, mask: u8, room: &mut Block)
    requires { HeldAt (D.state dev.old) held.now }
    ensures keeps { Keeps (D.state dev.old) (D.state dev.new) }
    ensures changes { Changes (put_over (is_marked mask) held.now.at held.now.block) (D.state dev.old) (D.state dev.new) }
{
    if mask == 0 {
        return;
    }
    let Ok(()) = dev.get(BlockNo(held.at), room) else {
        return;
    };
    mix(room, &held.block, mask);
    let _ = dev.put(BlockNo(held.at), room);
}

// Puts the sectors that are picked back, block by block.
fn put_all_back<D: Calls>(
    dev: &mut D,
    held: &[Held],
    pick: u64,
    at: BlockNo,
    tear: u8,
    room: &mut Block,
)
    requires { All (HeldAt (D.state dev.old)) held.now }
    ensures keeps { Keeps (D.state dev.old) (D.state dev.new) }
    ensures changes { Changes (put_back at.0 tear pick held.now) (D.state dev.old) (D.state dev.new) }
{
    let mut number = pick;
    for block in held {
        let (mask, behind) = picks(number, skip_of(at.0, tear, block.at));
        number = behind;
        put_one_back(dev, block, mask, room);
    }
}

// The stop of a call of which nothing is written.
pub fn stop_now<D: Calls>(dev: &D) -> Stop
    ensures stop { result ≡ stop_here (D.state dev.now) }
    ensures time { (D.state dev.now).clock ≤ result.clock }
    ensures faults { (D.state dev.now).faults ≤ result.faults }
{
    let cut = dev.moment();
    Stop {
        cut,
        clock: cut.saturating_add(1),
        faults: dev.count().saturating_add(1),
    }
}

// The stop's call. At the clock's end it touches nothing.
pub fn halt<D: Calls>(
    dev: &mut D,
    at: BlockNo,
    from: &Block,
    tear: u8,
    pick: Option<u64>,
    room: &mut Block,
    held: &[Held],
) -> Stop
    requires below { at.0 < (D.state dev.old).blocks }
    requires held { All (HeldAt (D.state dev.old)) held.now }
    ensures { Halts tear at.0 from.now pick held.now (D.state dev.old) result (D.state dev.new) }
{
    let before = dev.moment();
    if before == u64::MAX {
        return stop_now(dev);
    }
    tear_write(dev, at, from, tear, room);
    let cut = dev.moment();
    if let Some(pick) = pick {
        put_all_back(dev, held, pick, at, tear, room);
    }
    Stop {
        cut,
        clock: before + 1,
        faults: dev.count().saturating_add(1),
    }
}
