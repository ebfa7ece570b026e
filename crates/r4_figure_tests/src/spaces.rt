//! Spaces that are read.

ghost use Rattle.std.specs.Prelude.{◌≡◌, [], IfOk};

use r4_base::Block;
use r4_space::{SpaceFault, SpaceMap};
use std::alloc::Global;
use std::process::Abort;

/// The space that these bitmaps tell. The numbers are no constants here, with which its contract
/// would be computed.
pub fn read(
    rt: &impl Abort,
    alloc: Global,
    bitmaps: &[Block],
    blocks: u64,
    free: u64,
) -> Result<SpaceMap, SpaceFault>
    ensures blocks { IfOk result (λ s. s.block_count ≡ blocks) }
    ensures sealed { IfOk result (λ s. s.sealed ≡ []) }
{
    assert!(rt; blocks >= 64 && blocks <= 1_048_576);
    assert_eq!(rt; bitmaps.len() as u64, (blocks + 32_735) / 32_736);
    SpaceMap::read(alloc, bitmaps, blocks, free)
}
