//! Keys of a file that has a body (docs/layout.md, "Keys").

ghost use Rattle.std.specs.Prelude.{◌≡◌, false};
ghost use Rattle.r4_base.specs.Key.{IsKey, rank};
ghost use Rattle.r4_base.specs.Volume.{byte_rank, object_of, stat_rank};
ghost use Rattle.r4_leaf_demands.specs.r4_reach.Reach.{is_body};

use r4_base::{Key, Oid};

/// The minor type of a body's keys.
const BODY: u64 = 4;

/// How many minor types there may be.
const MINORS: u64 = 16;

/// Whether a key is a body's.
pub(crate) fn is_of_body(key: Key) -> bool
    ensures { result ≡ is_body (rank key) }
{
    key.el[0] % MINORS == BODY
}

/// The key of the stat data of the file that has a body's key. It is no body's.
pub(crate) fn stat_of(key: Key) -> Key
    ensures stat { rank result ≡ stat_rank (object_of key) }
    ensures other { is_body (rank result) ≡ false }
    ensures fits { IsKey key }
{
    Key::stat(key.el[0] / MINORS, key.el[1], Oid(key.el[2]))
}

/// The key of a byte of the file that has a body's key, by its offset.
pub(crate) fn byte_of(key: Key, offset: u64) -> Key
    ensures { rank result ≡ byte_rank (object_of key) offset }
{
    Key::body(key.el[0] / MINORS, key.el[1], Oid(key.el[2]), offset)
}
