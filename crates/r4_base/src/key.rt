//! The keys of items (docs/layout.md, "Keys").

ghost use Rattle.std.specs.Prelude.{◌≡◌, ◌==◌, ◌↔◌, ◌+◌, ◌<◌, ◌^◌, IsTrue, nat_lt};
ghost use Rattle.std.specs.Ordering.{nat_cmp, is_lt};
ghost use Rattle.std.specs.Cmp.Lexicographic.{slice_cmp};
ghost use Rattle.r4_base.specs.Key.{IsKey, IsBelow, rank, stat_key, body_key, later, offset_of, with_offset};

use crate::things::Oid;

/// The key of an item: locality and minor type, ordering, object id and offset, each below 2^64. Keys are ordered by
/// the first number, then by the second, and so on (docs/layout.md, "Keys").
#[derive(Clone, Copy, Debug, PartialEq, Eq, PartialOrd, Ord)]
pub struct Key {
    pub el: [u64; 4],
}

impl Key {
    /// The key of an object's stat data: minor type 1 and offset 0. The locality is below 2^60 (docs/layout.md, "Keys").
    pub fn stat(locality: u64, ordering: u64, oid: Oid) -> Key
        requires { locality < 2 ^ 60 }
        ensures { result ≡ stat_key locality ordering oid }
    {
        Key {
            el: [locality * 16 + 1, ordering, oid.0, 0],
        }
    }

    /// The key of an object's body from byte `offset` on: minor type 4. The locality is below 2^60 (docs/layout.md,
    /// "Keys").
    pub fn body(locality: u64, ordering: u64, oid: Oid, offset: u64) -> Key
        requires { locality < 2 ^ 60 }
        ensures { result ≡ body_key locality ordering oid offset }
    {
        Key {
            el: [locality * 16 + 4, ordering, oid.0, offset],
        }
    }

    /// The key with another offset.
    pub fn with_offset(self, offset: u64) -> Key
        ensures { result ≡ with_offset self offset }
    {
        let [locality, ordering, oid, _] = self.el;
        Key {
            el: [locality, ordering, oid, offset],
        }
    }

    /// The key so many bytes behind this one, whose offset is below 2^64.
    pub fn behind(self, bytes: u64) -> Key
        requires { offset_of self + bytes < 2 ^ 64 }
        ensures { result ≡ later self bytes }
    {
        self.with_offset(self.el[3] + bytes)
    }

    /// Whether this key comes before another one (docs/layout.md, "Keys").
    pub fn is_below(self, other: Key) -> bool
        ensures { result ≡ nat_lt (rank self) (rank other) }
    {
        self.cmp(&other).is_lt()
    }

    /// Whether this is the same key as another (docs/layout.md, "Keys").
    pub fn is_same(self, other: Key) -> bool
        ensures ranks { result ≡ (rank self == rank other) }
        ensures keys { IsTrue result → self ≡ other }
    {
        self == other
    }
}

/// The order of keys that is computed is that of their ranks, and keys of one rank are equal.
pub fn key_law()
    ensures order { (a b : Key) → IsKey a → IsKey b → (IsTrue (is_lt (slice_cmp nat_cmp a.el b.el)) ↔ IsBelow a b) }
    ensures equal { (a b : Key) → IsKey a → IsKey b → rank a ≡ rank b → a ≡ b }
{}
