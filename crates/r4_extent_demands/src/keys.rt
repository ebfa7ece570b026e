//! Keys of a body, and of its blocks (docs/layout.md, "Keys").

ghost use Rattle.std.specs.Prelude.{◌≡◌, ◌+◌, ◌*◌, ◌^◌, ◌≤◌};
ghost use Rattle.r4_base.specs.Key.{minor_of, offset_of, rank};
ghost use Rattle.r4_bodies.specs.r4_leaf_edits.r4_reach.Reach.{is_body};

use r4_base::{BLOCK_BYTES, Key};

/// The minor type of a body's keys.
const BODY: u64 = 4;

/// How many minor types there may be.
const MINORS: u64 = 16;

/// Whether a key is a body's (docs/layout.md, "Keys").
pub fn is_of_body(key: Key) -> bool
    ensures { result ≡ is_body (rank key) }
{
    key.el[0] % MINORS == BODY
}

/// The key so many blocks, at least one, behind a body's key: the one behind its last key, where the blocks end there.
#[tactic(auto, unfolding(r4_base::specs::Key::rank))]
pub(crate) fn past_blocks(key: Key, blocks: u64) -> Key
    requires body { minor_of key ≡ 4 }
    requires some { 1 ≤ blocks }
    requires fits { offset_of key + 4096 * blocks ≤ 2 ^ 64 }
    ensures { rank result ≡ rank key + 4096 * blocks }
{
    let [el0, el1, el2, el3] = key.el;
    let last = el3 + (BLOCK_BYTES * (blocks - 1) + (BLOCK_BYTES - 1));
    let el = if last < u64::MAX {
        [el0, el1, el2, last + 1]
    } else if el2 < u64::MAX {
        [el0, el1, el2 + 1, 0]
    } else if el1 < u64::MAX {
        [el0, el1 + 1, 0, 0]
    } else {
        [el0 + 1, 0, 0, 0]
    };
    Key { el }
}
