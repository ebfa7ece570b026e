//! The calls of a device, without its bound on threads: what is generic in this can be called from an impl of `Device`.

ghost use Rattle.std.specs.Prelude.{◌≡◌, ◌<◌};
ghost use Rattle.r4_outside.specs.Device.{State, Reads, Writes};

use r4_base::{Block, BlockNo};
use r4_outside::{Device, Failed};

/// The calls of a device that are made at its stop.
pub trait Calls {
    /// What the device tells of itself.
    ghost state: { Self → State };

    /// `read` of the device.
    fn get(&mut self, at: BlockNo, into: &mut Block) -> Result<(), Failed>
        requires { at.0 < (state self.old).blocks }
        ensures { Reads at.0 into.new (state self.old) result (state self.new) };

    /// `write` of the device.
    fn put(&mut self, at: BlockNo, from: &Block) -> Result<(), Failed>
        requires { at.0 < (state self.old).blocks }
        ensures { Writes at.0 from.now (state self.old) result (state self.new) };

    /// `clock` of the device.
    fn moment(&self) -> u64
        ensures { result ≡ (state self.now).clock };

    /// `faults` of the device.
    fn count(&self) -> u64
        ensures { result ≡ (state self.now).faults };
}

impl<D: Device> Calls for D {
    ghost state = { λ d. D.Device.state d };

    fn get(&mut self, at: BlockNo, into: &mut Block) -> Result<(), Failed> {
        self.read(at, into)
    }

    fn put(&mut self, at: BlockNo, from: &Block) -> Result<(), Failed> {
        self.write(at, from)
    }

    fn moment(&self) -> u64 {
        self.clock()
    }

    fn count(&self) -> u64 {
        self.faults()
    }
}
