//! Extents of blocks that have no place yet: which are some, and where they end.

ghost use Rattle.std.specs.Prelude.{◌≡◌, ◌+◌, ◌*◌, ◌^◌, ◌<◌, Some, IfSome};
ghost use Rattle.r4_base.specs.Key.{IsKey, offset_of, rank};
ghost use Rattle.r4_extent_edit_tests.specs.Blocks.{AreBlocks};

use r4_base::{Key, Unit};
use r4_edit_testing::UNPLACED;
use r4_twig::ExtentView;

/// How many blocks there are.
const BLOCKS: u64 = 1 << 60;

/// How many blocks the extent has, 1 to 251, each of which has no place yet and the number behind
/// the one before it, the first one that behind those that may be taken; `None` where it is another
/// extent.
pub(crate) fn count_new_blocks(body: &[u8]) -> Option<u16>
    ensures { IfSome result (λ n. AreBlocks n body.now) }
{
    if body.len() > 4030 {
        return None;
    }
    let Ok(extent) = ExtentView::in_memory(body, BLOCKS) else {
        return None;
    };
    for i in 0..extent.len() {
        let block = Unit {
            start: UNPLACED + u64::from(i),
            width: 1,
        };
        if extent.unit(i) != block {
            return None;
        }
    }
    Some(extent.len())
}

/// The key so many blocks behind another, of the same object.
pub(crate) fn blocks_behind(key: &Key, count: u16) -> Option<Key>
    ensures { (k : Key) → result ≡ Some k → IsKey key.now
        × (offset_of key.now + 4096 * count < 2 ^ 64) × (rank k ≡ rank key.now + 4096 * count) }
{
    let bytes = 4096 * u64::from(count);
    if key.el[3] >= u64::MAX - bytes {
        return None;
    }
    Some(Key {
        el: [key.el[0], key.el[1], key.el[2], key.el[3] + bytes],
    })
}
