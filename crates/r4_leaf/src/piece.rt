//! The pieces of which a leaf is built anew (docs/volume.md, "Leaves").

ghost use Rattle.std.specs.Prelude.{◌≡◌};

use crate::run::Run;
use r4_base::Key;
use r4_cde::EntryRef;

/// What a leaf is built of: stat data, one entry of a directory, or a run of a tail's bytes, the first at the key. None is
/// held.
#[derive(Drop)]
pub(crate) enum Piece<'a> {
    Stat(Key, &'a [u8]),
    Entry(EntryRef<'a>),
    Bytes(Key, Run<'a>),
}

impl<'a> Piece<'a> {
    ghost use Rattle.r4_leaf.specs.Pieces.{piece_key};

    /// The key of its first unit.
    pub(crate) fn key(&self) -> Key
        ensures { result ≡ piece_key self.now }
    {
        match self {
            Piece::Stat(key, _) => *key,
            Piece::Entry(entry) => entry.key,
            Piece::Bytes(key, _) => *key,
        }
    }
}
