//! The objects of a volume, and the entries of its root directory.
//!
//! | path | what it is |
//! |---|---|
//! | `/` | a directory with three directories and nine entries |
//! | `/d` | a directory with the file `/d/x`, of 3,858 bytes `x` |
//! | `/e` | an empty directory |
//! | `/f` | a file of 9,000 bytes: 4,096 are `a`, 4,096 are 0, and 808 are `b` |
//! | `/g` | a file of 100 bytes `g` |
//! | `/h` | a file of 3,000 bytes `c` with 65,535 links, of which `LONG_NAME` is one |
//! | `/i` | an empty file |
//! | `/m` | an empty directory with 65,535 links |
//! | `/z` | an entry for an object that is not there, which no volume has |
//!
//! The next number for an object is `NEXT`.

use r4_base::{Attr, Key, Oid, Target};

/// An object: the letter that it was named by when it was made, which is 0 for the root, the number
/// of the directory in which it was made, and its own.
#[derive(Clone, Copy)]
pub struct Object {
    pub letter: u8,
    pub dir: u32,
    pub oid: u32,
    pub mode: u16,
    pub nlink: u32,
    pub size: u64,
}

impl Object {
    // The ordering of its keys: its letter is the first of seven bytes.
    fn ordering(&self) -> u64 {
        u64::from(self.letter) << 48
    }

    /// What an entry for it names.
    pub fn target(&self) -> Target {
        Target {
            locality: u64::from(self.dir),
            ordering: self.ordering(),
            oid: Oid(u64::from(self.oid)),
        }
    }

    /// Its attributes; owners and times are 0.
    pub fn attr(&self) -> Attr {
        Attr {
            mode: self.mode,
            nlink: self.nlink,
            size: self.size,
            uid: 0,
            gid: 0,
            atime: 0,
            mtime: 0,
            ctime: 0,
            bytes: self.size,
        }
    }

    /// The key of its stat data.
    pub fn stat_key(&self) -> Key {
        self.key(1, 0)
    }

    /// The key of a byte of its body.
    pub fn byte(&self, offset: u64) -> Key {
        self.key(4, offset)
    }

    /// The least key of an entry, where it is a directory.
    pub fn first_entry(&self) -> Key {
        Key {
            el: [u64::from(self.oid) * 16, 0, 0, 0],
        }
    }

    // A key of a minor type.
    fn key(&self, minor: u64, offset: u64) -> Key {
        let locality = u64::from(self.dir) * 16;
        Key {
            el: [
                locality.saturating_add(minor),
                self.ordering(),
                u64::from(self.oid),
                offset,
            ],
        }
    }
}

/// The first number that no object has, and no entry names.
pub const NEXT: Oid = Oid(65_545);

/// A name of 24 bytes; one that ends with `bl` in the place of `ca` has the same key.
pub const LONG_NAME: &[u8] = b"aaaaaaaaaaaaaaaxxxxxxxca";

/// The names in the root directory, in the order of their keys, and the objects that they name, by
/// letter and number.
pub static ROOT_ENTRIES: [(&[u8], u8, u32); 9] = [
    (b"d", b'd', 65_536),
    (b"e", b'e', 65_537),
    (b"f", b'f', 65_538),
    (b"g", b'g', 65_539),
    (b"h", b'h', 65_540),
    (b"i", b'i', 65_541),
    (b"m", b'm', 65_542),
    (b"z", b'z', 65_544),
    (LONG_NAME, b'h', 65_540),
];

/// The root directory.
pub const ROOT: Object = Object {
    letter: 0,
    dir: 41,
    oid: 42,
    mode: 0o40755,
    nlink: 5,
    size: 9,
};

/// `/d`.
pub const D: Object = Object {
    letter: b'd',
    dir: 42,
    oid: 65_536,
    mode: 0o40755,
    nlink: 2,
    size: 1,
};

/// `/e`.
pub const E: Object = Object {
    letter: b'e',
    dir: 42,
    oid: 65_537,
    mode: 0o40755,
    nlink: 2,
    size: 0,
};

/// `/f`.
pub const F: Object = Object {
    letter: b'f',
    dir: 42,
    oid: 65_538,
    mode: 0o100644,
    nlink: 1,
    size: 9000,
};

/// `/g`.
pub const G: Object = Object {
    letter: b'g',
    dir: 42,
    oid: 65_539,
    mode: 0o100644,
    nlink: 1,
    size: 100,
};

/// `/h`.
pub const H: Object = Object {
    letter: b'h',
    dir: 42,
    oid: 65_540,
    mode: 0o100644,
    nlink: 65_535,
    size: 3000,
};

/// `/i`.
pub const I: Object = Object {
    letter: b'i',
    dir: 42,
    oid: 65_541,
    mode: 0o100644,
    nlink: 1,
    size: 0,
};

/// `/m`.
pub const M: Object = Object {
    letter: b'm',
    dir: 42,
    oid: 65_542,
    mode: 0o40755,
    nlink: 65_535,
    size: 0,
};

/// `/d/x`.
pub const X: Object = Object {
    letter: b'x',
    dir: 65_536,
    oid: 65_543,
    mode: 0o100644,
    nlink: 1,
    size: 3858,
};

/// All objects, in the order of their keys.
pub static OBJECTS: [Object; 9] = [ROOT, D, E, F, G, H, I, M, X];
