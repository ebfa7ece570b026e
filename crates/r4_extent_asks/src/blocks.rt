//! Keys of the blocks of a body (docs/layout.md, "Keys").

ghost use Rattle.std.specs.Prelude.{◌≡◌, ◌+◌, ◌-◌, ◌*◌, ◌/◌, ◌^◌, ◌<◌, ◌≤◌, ℕ, min, nat_lt};
ghost use Rattle.r4_base.specs.Key.{offset_of, rank, top};

use r4_base::{BLOCK_BYTES, Key};

/// The next key. There is one, since it is below that behind all of them.
#[tactic(auto, unfolding(r4_base::specs::Key::rank, r4_base::specs::Key::top))]
pub(crate) fn next_key(key: Key) -> Key
    requires { rank key < top }
    ensures { rank result ≡ rank key + 1 }
{
    let [el0, el1, el2, el3] = key.el;
    let el = if el3 < u64::MAX {
        [el0, el1, el2, el3 + 1]
    } else if el2 < u64::MAX {
        [el0, el1, el2 + 1, 0]
    } else if el1 < u64::MAX {
        [el0, el1 + 1, 0, 0]
    } else {
        [el0 + 1, 0, 0, 0]
    };
    Key { el }
}

/// The first key of the block that has a key, counted from the first one of a body; that itself for a key before it.
#[tactic(auto, unfolding(r4_base::specs::Key::rank))]
pub(crate) fn block_start(first: Key, key: Key) -> Key
    requires { offset_of first ≡ 0 }
    ensures rank { rank result ≡ rank first + (rank key - rank first) / 4096 * 4096 }
    ensures fits { offset_of result + 4096 ≤ 2 ^ 64 }
{
    if key.is_below(first) {
        return first;
    }
    key.with_offset(key.el[3] / BLOCK_BYTES * BLOCK_BYTES)
}

/// The key at which the block ends that has the key before this one, counted from the first key of a body; as far as
/// there is one.
pub(crate) fn block_end(first: Key, key: Key) -> Key
    requires { offset_of first ≡ 0 }
    ensures { (k : ℕ) → k < top → nat_lt k (rank result)
        ≡ nat_lt k (rank first + (rank key - rank first + 4095) / 4096 * 4096) }
{
    if key.is_below(first) {
        return first;
    }
    let start = block_start(first, key);
    if start.is_same(key) {
        return key;
    }
    next_block(start)
}

// The key a block behind another one, or the greatest one where there is none.
#[tactic(auto, unfolding(r4_base::specs::Key::rank, r4_base::specs::Key::top))]
fn next_block(start: Key) -> Key
    requires { offset_of start + 4096 ≤ 2 ^ 64 }
    ensures { rank result ≡ min (rank start + 4096) top }
{
    let [el0, el1, el2, el3] = start.el;
    let last = el3 + (BLOCK_BYTES - 1);
    let el = if last < u64::MAX {
        [el0, el1, el2, last + 1]
    } else if el2 < u64::MAX {
        [el0, el1, el2 + 1, 0]
    } else if el1 < u64::MAX {
        [el0, el1 + 1, 0, 0]
    } else if el0 < u64::MAX {
        [el0 + 1, 0, 0, 0]
    } else {
        [el0, el1, el2, u64::MAX]
    };
    Key { el }
}
