//! A device, by what its calls mean.

ghost use Rattle.std.specs.Prelude.{ℕ, ◌≡◌, ◌<◌};
ghost use Rattle.r4_outside.specs.Device.{State, Counts, Reads, Writes, Syncs};

use r4_base::{Block, BlockNo};

/// A call of a device, a source or a sink that did not go well. Its count of faults rose in that call.
#[derive(Clone, Copy, Debug, PartialEq, Eq)]
pub struct Failed;

/// A row of blocks, which a crash may leave half written.
///
/// A sector of 512 bytes is written whole or not at all, and the sectors of writes that are not yet synced survive a
/// crash each for itself. After a crash at a moment of the clock, a sector holds the content of its last write before
/// the last good sync up to that moment, or of any later write up to and including that moment's call. No call changes
/// which of its meanings a device tells, and no call takes memory of the caller.
pub trait Device: Send {
    /// What the device tells of itself.
    ghost state: { Self → State };

    /// The number of blocks, which never changes.
    fn blocks(&mut self) -> Result<u64, Failed>
        ensures { Counts (state self.old) result (state self.new) };

    /// Reads block `at`, which is below the number of blocks. After `Failed` the content of `into` is open.
    fn read(&mut self, at: BlockNo, into: &mut Block) -> Result<(), Failed>
        requires { at.0 < (state self.old).blocks }
        ensures { Reads at.0 into.new (state self.old) result (state self.new) };

    /// Writes block `at`, which is below the number of blocks. A crash may tear the write until the next good sync.
    /// A write that failed counts as a write: each of its sectors may have been written.
    fn write(&mut self, at: BlockNo, from: &Block) -> Result<(), Failed>
        requires { at.0 < (state self.old).blocks }
        ensures { Writes at.0 from.now (state self.old) result (state self.new) };

    /// After a good sync a crash leaves what reading gives. A sync that failed counts as none.
    fn sync(&mut self) -> Result<(), Failed>
        ensures { Syncs (state self.old) result (state self.new) };

    /// The number of writes and syncs so far, failed ones included. At 2^64 - 1 it stands still, and `write` and `sync`
    /// then touch nothing and fail.
    fn clock(&self) -> u64
        ensures { result ≡ (state self.now).clock };

    /// The number of calls that failed, which stands still at 2^64 - 1.
    fn faults(&self) -> u64
        ensures { result ≡ (state self.now).faults };
}

impl<D: Device> Device for &mut D {
    ghost use Rattle.r4_outside.specs.Device.{lent_to};

    ghost state = { λ device. lent_to device.ghost_name (D.state device.now) };

    fn blocks(&mut self) -> Result<u64, Failed> {
        (**self).blocks()
    }

    fn read(&mut self, at: BlockNo, into: &mut Block) -> Result<(), Failed> {
        (**self).read(at, into)
    }

    fn write(&mut self, at: BlockNo, from: &Block) -> Result<(), Failed> {
        (**self).write(at, from)
    }

    fn sync(&mut self) -> Result<(), Failed> {
        (**self).sync()
    }

    fn clock(&self) -> u64 {
        (**self).clock()
    }

    fn faults(&self) -> u64 {
        (**self).faults()
    }
}
