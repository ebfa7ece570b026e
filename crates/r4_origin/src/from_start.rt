//! A device, and that it goes on from a named beginning.

ghost use Rattle.std.specs.Prelude.{◌≡◌};
ghost use Rattle.r4_outside.specs.Device.{Goes};

use crate::origin::Origin;
use r4_base::{Block, BlockNo};
use r4_outside::{Device, Failed};
use std::marker::{Model, PhantomData};

/// A device that goes on from where `O` says that the run began: so much is known of it wherever it
/// comes back, also out of a lock.
pub struct FromStart<D: Device, O: Origin> {
    dev: D,
    origin: PhantomData<O>,
}

impl<D: Device, O: Origin> Model for FromStart<D, O> {
    ghost use Rattle.r4_outside.specs.Device.{Goes};

    ghost Value = { D };

    ghost view = { λ d. d.dev };

    ghost invariant = { λ d. Goes O.began (D.state d.dev) };
}

impl<D: Device, O: Origin> FromStart<D, O> {
    /// A device that goes on from the beginning that `O` names.
    pub fn new(dev: D) -> FromStart<D, O>
        requires { Goes O.began (D.state dev) }
        ensures { result ≡ dev }
    {
        FromStart {
            dev,
            origin: PhantomData,
        }
    }

    /// The device, which goes back.
    pub fn into_inner(self) -> D
        ensures device { result ≡ self }
        ensures goes { Goes O.began (D.state result) }
    {
        let FromStart { dev, origin: _ } = self;
        dev
    }
}

impl<D: Device, O: Origin> Device for FromStart<D, O> {
    ghost state = { λ device. D.state device };

    fn blocks(&mut self) -> Result<u64, Failed> {
        self.dev.blocks()
    }

    fn read(&mut self, at: BlockNo, into: &mut Block) -> Result<(), Failed> {
        self.dev.read(at, into)
    }

    fn write(&mut self, at: BlockNo, from: &Block) -> Result<(), Failed> {
        self.dev.write(at, from)
    }

    fn sync(&mut self) -> Result<(), Failed> {
        self.dev.sync()
    }

    fn clock(&self) -> u64 {
        self.dev.clock()
    }

    fn faults(&self) -> u64 {
        self.dev.faults()
    }
}
