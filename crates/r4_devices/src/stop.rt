//! A device that stops.

ghost use Rattle.std.specs.Prelude.{◌≡◌, ◌↔◌, ◌≤◌, ◌<◌, false, None, Some, IsSome, IfOk, IfErr};
ghost use Rattle.r4_outside.specs.Device.{State, TellsCrashes, Counts, Reads, Writes, Syncs};
ghost use Rattle.r4_devices.specs.Stop.{StopView, stopped_after, held_after, told, Begins, IsCovered, Refuses, Passes, Starves, Stops, after_fault, after_miss};

use crate::held::hold;
use crate::torn::{Held, Stop, halt, stop_now};
use r4_base::{Block, BlockNo};
use r4_outside::{Device, Failed};
use std::alloc::Global;
use std::marker::Model;

/// Want of memory at the making of a `StopDevice`. It hands the device back, of which no call was made.
#[derive(Drop)]
pub struct Unmade<D> {
    pub dev: D,
}

/// A device that passes a number of writes, tears the next one, and fails from then on.
///
/// Of the torn write only some sectors are written. With a pick, sectors of blocks that were written earlier and not synced
/// then go back to what they held before. A number follows from one sector that is looked at to the next, in rising
/// order of block and sector: the first is `pick` times 6364136223846793005 plus 1442695040888963407, modulo 2^64, and
/// each other is made in that way of the one before it. A sector goes back where bit 63 of its number is 0. The sectors that
/// the torn write wrote are not looked at.
#[derive(Drop)]
pub struct StopDevice<D: Device> {
    alloc: Global,
    dev: D,
    left: u64,
    tear: u8,
    pick: Option<u64>,
    room: Block,
    held: Vec<Held>,
    starved: bool,
    stop: Option<Stop>,
    until: u64,
}

impl<D: Device> Model for StopDevice<D> {
    ghost use Rattle.r4_devices.specs.Stop.{StopView, IsKept};

    ghost Value = { StopView D };

    ghost view = { λ d. record {
      dev = d.dev;
      left = d.left;
      tear = d.tear;
      pick = d.pick;
      held = d.held.items;
      starved = d.starved;
      stop = d.stop;
      until = d.until;
    } };

    ghost invariant = { λ d. IsKept (D.state d.dev) d.stop d.until d.left d.starved d.held.items };
}

impl<D: Device> StopDevice<D> {
    /// A device that passes `stop` writes of `dev`. Of the next one it writes the sectors whose bits are set in `tear`: bit 0 is
    /// sector 0. It takes the block that a torn write needs; without a pick no memory is taken after that.
    pub fn new(
        alloc: Global,
        dev: D,
        stop: u64,
        tear: u8,
        pick: Option<u64>,
    ) -> Result<StopDevice<D>, Unmade<D>>
        ensures made { IfOk result (λ d. d ≡ stopped_after dev (D.state dev).clock stop tear pick) }
        ensures begins { IfOk result (λ d. Begins (D.state dev) (told D.state d)) }
        ensures back { IfErr result (λ e. e.dev ≡ dev) }
    {
        let Ok(room) = Block::zeroed(alloc) else {
            return Err(Unmade { dev });
        };
        let until = dev.clock().saturating_add(stop);
        Ok(StopDevice {
            alloc,
            dev,
            left: stop,
            tear,
            pick,
            room,
            held: Vec::new(alloc),
            starved: false,
            stop: None,
            until,
        })
    }

    /// The device below. What a crash of it leaves is among what the calls of this one may leave.
    pub fn into_inner(self) -> D
        ensures device { result ≡ self.dev }
        ensures tells { TellsCrashes (told D.state self) ↔ TellsCrashes (D.state self.dev) }
        ensures covered { IsCovered (D.state self.dev) (told D.state self) }
        ensures reached { IsSome self.stop → self.starved ≡ false → self.until ≤ (D.state self.dev).clock }
    {
        let StopDevice {
            alloc: _,
            dev,
            left: _,
            tear: _,
            pick: _,
            room: _,
            held: _,
            starved: _,
            stop: _,
            until: _,
        } = self;
        dev
    }

    /// Did it stop for want of memory, in a write that found none to hold a block back?
    pub fn starved(&self) -> bool
        ensures { result ≡ self.now.starved }
    {
        self.starved
    }
}

impl<D: Device> Device for StopDevice<D> {
    ghost state = { λ d. told D.state d };

    fn blocks(&mut self) -> Result<u64, Failed>
        ensures counts { Counts (told D.state self.old) result (told D.state self.new) }
        ensures passes { self.old.stop ≡ None → Counts (D.state self.old.dev) result (D.state self.new.dev) }
        ensures passed { self.old.stop ≡ None → self.new ≡ record self.old { dev = self.new.dev } }
        ensures stopped { (s : Stop) → self.old.stop ≡ Some s → Refuses (after_fault s) self.old result self.new }
    {
        if let Some(stop) = self.stop {
            self.stop = Some(failed(stop));
            return Err(Failed);
        }
        self.dev.blocks()
    }

    fn read(&mut self, at: BlockNo, into: &mut Block) -> Result<(), Failed>
        requires { at.0 < (told D.state self.old).blocks }
        ensures reads { Reads at.0 into.new (told D.state self.old) result (told D.state self.new) }
        ensures passes { self.old.stop ≡ None
            → Reads at.0 into.new (D.state self.old.dev) result (D.state self.new.dev) }
        ensures passed { self.old.stop ≡ None → self.new ≡ record self.old { dev = self.new.dev } }
        ensures stopped { (s : Stop) → self.old.stop ≡ Some s → Refuses (after_fault s) self.old result self.new }
    {
        if let Some(stop) = self.stop {
            self.stop = Some(failed(stop));
            return Err(Failed);
        }
        self.dev.read(at, into)
    }

    fn write(&mut self, at: BlockNo, from: &Block) -> Result<(), Failed>
        requires { at.0 < (told D.state self.old).blocks }
        ensures writes { Writes at.0 from.now (told D.state self.old) result (told D.state self.new) }
        ensures stopped { (s : Stop) → self.old.stop ≡ Some s → Refuses (after_miss s) self.old result self.new }
        ensures passes { self.old.stop ≡ None → 0 < self.old.left → self.new.stop ≡ None
            → Passes D.state at.0 from.now self.old result self.new }
        ensures starves { self.old.stop ≡ None → 0 < self.old.left → IsSome self.new.stop
            → Starves D.state at.0 self.old result self.new }
        ensures stops { self.old.stop ≡ None → self.old.left ≡ 0
            → Stops D.state at.0 from.now self.old result self.new }
    {
        if let Some(stop) = self.stop {
            self.stop = Some(missed(stop));
            return Err(Failed);
        }
        if self.left == 0 {
            let stop = halt(
                &mut self.dev,
                at,
                from,
                self.tear,
                self.pick,
                &mut self.room,
                &self.held,
            );
            self.stop = Some(stop);
            return Err(Failed);
        }
        let Ok(kept) = hold(self.alloc, &mut self.dev, at, self.pick, &mut self.held) else {
            self.starved = true;
            self.stop = Some(stop_now(&self.dev));
            return Err(Failed);
        };
        self.left -= 1;
        let answer = self.dev.write(at, from);
        if kept { answer } else { Err(Failed) }
    }

    fn sync(&mut self) -> Result<(), Failed>
        ensures syncs { Syncs (told D.state self.old) result (told D.state self.new) }
        ensures passes { self.old.stop ≡ None → Syncs (D.state self.old.dev) result (D.state self.new.dev) }
        ensures passed { self.old.stop ≡ None
            → self.new ≡ record self.old { dev = self.new.dev; held = held_after result self.old.held } }
        ensures stopped { (s : Stop) → self.old.stop ≡ Some s → Refuses (after_miss s) self.old result self.new }
    {
        if let Some(stop) = self.stop {
            self.stop = Some(missed(stop));
            return Err(Failed);
        }
        self.dev.sync()?;
        self.held.clear();
        Ok(())
    }

    fn clock(&self) -> u64 {
        match self.stop {
            Some(stop) => stop.clock,
            None => self.dev.clock(),
        }
    }

    fn faults(&self) -> u64 {
        match self.stop {
            Some(stop) => stop.faults,
            None => self.dev.faults(),
        }
    }
}

// What is counted after a read or a count of blocks that fails after the stop.
fn failed(stop: Stop) -> Stop
    ensures counts { result ≡ after_fault stop }
    ensures faults { stop.faults ≤ result.faults }
{
    Stop {
        faults: stop.faults.saturating_add(1),
        ..stop
    }
}

// What is counted after a write or a sync that fails after the stop.
fn missed(stop: Stop) -> Stop
    ensures counts { result ≡ after_miss stop }
    ensures time { stop.clock ≤ result.clock }
    ensures faults { stop.faults ≤ result.faults }
{
    Stop {
        cut: stop.cut,
        clock: stop.clock.saturating_add(1),
        faults: stop.faults.saturating_add(1),
    }
}
