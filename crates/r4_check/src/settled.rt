//! A settled image on a device, as it was opened.

ghost use Rattle.std.specs.Prelude.{◌≡◌, ◌<◌};
ghost use Rattle.r4_base.specs.Layout.{IsLawfulSuper};
ghost use Rattle.r4_open.specs.Opening.{AreAccepted};
ghost use Rattle.r4_replay.specs.Homes.{StaysWithin};
ghost use Rattle.r4_space.specs.Bitmaps.{marks};

use crate::blocks::has_block;
use r4_open::Opened;
use r4_replay::Log;

/// The settled image of a device of so many blocks: where its blocks stand, and its superblock and bitmaps.
#[derive(Drop)]
pub struct Settled {
    pub device_blocks: u64,
    pub log: Log,
    pub found: Opened,
    ghost homes: { StaysWithin device_blocks log },
    ghost lawful: { IsLawfulSuper device_blocks found.super40 },
    ghost accepted: { AreAccepted found.super40 found.bitmaps.items },
}

impl Settled {
    /// How many blocks its volume has.
    pub fn blocks(&self) -> u64
        ensures { result ≡ self.now.found.super40.block_count }
    {
        self.found.super40.block_count
    }

    /// Whether a block of the volume is marked.
    pub fn is_marked(&self, b: u64) -> bool
        requires { b < self.now.found.super40.block_count }
        ensures { result ≡ marks self.now.found.bitmaps.items b }
    {
        has_block(self.found.bitmaps.as_slice(), b)
    }
}
