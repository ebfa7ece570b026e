//! What the nodes of a tree hold, without the bytes of files (docs/check.md, "Objects").

ghost use Rattle.std.specs.Prelude.{◌≡◌};
ghost use Rattle.r4_base.specs.Volume.{object_of};
ghost use Rattle.r4_check_objects.specs.Held.{facts_of, id_of, is_placed, is_stat_data};
ghost use Rattle.r4_check_objects.specs.Objects.{extent_blocks, facts_in, is_same, tail_bytes, target_of};

use r4_base::{Attr, Key, Oid, Target};

/// What a check reads of stat data. `size` is in bytes, or for a directory in entries.
#[derive(Clone, Copy)]
pub struct Facts {
    pub directory: bool,
    pub nlink: u32,
    pub size: u64,
    pub bytes: u64,
}

impl Facts {
    /// What is read of these attributes.
    pub fn of(attr: Attr) -> Facts
        ensures { result ≡ facts_of attr }
    {
        Facts {
            directory: attr.is_directory(),
            nlink: attr.nlink,
            size: attr.size,
            bytes: attr.bytes,
        }
    }
}

/// Stat data, an entry that names an object, so many bytes of a tail, or so many blocks of an extent.
#[derive(Clone, Copy)]
pub enum Thing {
    Stat(Facts),
    Entry(Target),
    Tail(u64),
    Extent(u64),
}

/// What a block holds at a key: of a body, the key is that of its first byte.
#[derive(Clone, Copy)]
pub struct Held {
    pub block: u64,
    pub key: Key,
    pub thing: Thing,
}

impl Held {
    /// The object id under which it is counted: that of its key, and for an entry that of its directory.
    pub fn id(&self) -> u64
        ensures { result ≡ id_of self.now }
    {
        match self.thing {
            Thing::Entry(_) => self.key.el[0] / 16,
            Thing::Stat(_) | Thing::Tail(_) | Thing::Extent(_) => self.key.el[2],
        }
    }

    /// Whether its key is one that such a thing has: of minor type 1 and with offset 0 for stat data, of minor type 0 for
    /// an entry, and of minor type 4 for a part of a body.
    pub fn is_placed(&self) -> bool
        ensures { result ≡ is_placed self.now }
    {
        let minor = self.key.el[0] % 16;
        match self.thing {
            Thing::Stat(_) => minor == 1 && self.key.el[3] == 0,
            Thing::Entry(_) => minor == 0,
            Thing::Tail(_) | Thing::Extent(_) => minor == 4,
        }
    }

    /// Whether it is stat data, at whatever key.
    pub fn is_stat_data(&self) -> bool
        ensures { result ≡ is_stat_data self.now }
    {
        matches!(self.thing, Thing::Stat(_))
    }

    /// The facts of the object whose stat data it is.
    pub fn facts(&self) -> Option<Facts>
        ensures { result ≡ facts_in self.now }
    {
        match self.thing {
            Thing::Stat(facts) if self.is_placed() => Some(facts),
            _ => None,
        }
    }

    /// What an entry names.
    pub fn target(&self) -> Option<Target>
        ensures { result ≡ target_of self.now.thing }
    {
        match self.thing {
            Thing::Entry(target) => Some(target),
            _ => None,
        }
    }

    /// How many bytes of a tail it is.
    pub fn tail_bytes(&self) -> u64
        ensures { result ≡ tail_bytes self.now.thing }
    {
        match self.thing {
            Thing::Tail(bytes) => bytes,
            _ => 0,
        }
    }

    /// How many blocks of an extent it is.
    pub fn extent_blocks(&self) -> u64
        ensures { result ≡ extent_blocks self.now.thing }
    {
        match self.thing {
            Thing::Extent(blocks) => blocks,
            _ => 0,
        }
    }

    /// The object whose stat data or body has its key.
    pub fn object(&self) -> Target
        ensures { result ≡ object_of self.now.key }
    {
        Target {
            locality: self.key.el[0] / 16,
            ordering: self.key.el[1],
            oid: Oid(self.key.el[2]),
        }
    }
}

/// Whether two objects are the same.
pub fn is_same(one: &Target, other: &Target) -> bool
    ensures { result ≡ is_same one.now other.now }
{
    one.locality == other.locality && one.ordering == other.ordering && one.oid.0 == other.oid.0
}
