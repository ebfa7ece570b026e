//! Data blocks after edits (docs/volume.md, "Data blocks").

ghost use Rattle.std.specs.Prelude.{◌≡◌, ◌⊎◌, ◌+◌, ◌^◌, ◌<◌, IfOk, length};
ghost use Rattle.std.specs.Arc.{arc_value};
ghost use Rattle.r4_base.specs.Key.{offset_of, rank};
ghost use Rattle.r4_content.specs.Held.{edits_of};
ghost use Rattle.r4_extent_blocks.specs.Setting.{IsOverwritten, SetsAll, byte_set, new_cell};

use crate::finding::covers;
use crate::setting::set_all;
use r4_base::{BLOCK_BYTES, Block, Key, Memory, NodeId};
use r4_cell::{Cell, new_cell};
use r4_content::Edits;
use std::alloc::Global;
use std::sync::Arc;

/// A data block with the bytes that edits set in it, under the same name and for the same 4096 keys. Bytes that are cut
/// stay as they are: those past the end of a file are no part of it. It takes no step for a byte, and a block of which
/// one edit sets all is not copied first. The only error is want of memory (docs/volume.md, "Data blocks").
pub fn overwritten(alloc: Global, block: &Cell, edits: &Edits) -> Result<Arc<Cell>, Memory>
    requires { block.now.level ≡ 0 }
    ensures { IfOk result (λ c. IsOverwritten (edits_of edits.now) block.now (arc_value c)) }
{
    let lo = block.lo();
    let mut bytes = begun(alloc, block.block(), &lo, edits)?;
    set_all(bytes.bytes_mut(), &lo, edits);
    new_cell(alloc, block.id(), 0, lo, block.hi(), bytes)
}

/// A data block of this name for the 4096 keys from one on: of the bytes that edits set there, and of zeros. The only
/// error is want of memory (docs/volume.md, "Data blocks").
pub fn new_block(alloc: Global, id: NodeId, lo: Key, edits: &Edits) -> Result<Arc<Cell>, Memory>
    requires { offset_of lo + 4096 < 2 ^ 64 }
    ensures { IfOk result (λ c. arc_value c ≡ new_cell (edits_of edits.now) id.0 lo) }
{
    let mut bytes = Block::zeroed(alloc)?;
    set_all(bytes.bytes_mut(), &lo, edits);
    new_cell(alloc, id, 0, lo, lo.behind(BLOCK_BYTES), bytes)
}

// A copy of a block's bytes; zeros where one edit sets all of them.
fn begun(alloc: Global, block: &Block, lo: &Key, edits: &Edits) -> Result<Block, Memory>
    ensures begun { IfOk result (λ b. (b ≡ block.now)
        ⊎ SetsAll (byte_set (edits_of edits.now)) (rank lo.now)) }
    ensures whole { length block.now ≡ 4096 }
{
    let _whole = block.bytes();
    if covers(edits, lo) {
        return Block::zeroed(alloc);
    }
    block.copy(alloc)
}
