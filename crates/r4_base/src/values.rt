//! Names and bytes that are held in memory, and what stands at a key (docs/volume.md, "Content").

ghost use Rattle.std.specs.Prelude.{◌≡◌, IfOk};

use crate::items::{Attr, Target};
use std::alloc::{AllocError, Global};
use std::marker::Model;
use std::sync::Arc;

/// Bytes behind an `Arc`, which contracts see as their list.
#[derive(Drop)]
pub struct Bytes {
    items: Arc<Vec<u8>>,
}

impl Model for Bytes {
    ghost use Rattle.std.specs.Prelude.{List, ℕ};
    ghost use Rattle.std.specs.Arc.{arc_value};

    ghost Value = { List ℕ };

    ghost view = { λ b. (arc_value b.items).items };
}

impl Bytes {
    /// These bytes, which are moved and not copied.
    pub fn from_vec(alloc: Global, items: Vec<u8>) -> Result<Bytes, AllocError>
        ensures { IfOk result (λ b. b ≡ items.items) }
    {
        let items = Arc::new(alloc, items)?;
        Ok(Bytes { items })
    }

    /// The bytes, to be read.
    pub fn as_slice(&self) -> &[u8]
        ensures { result.now ≡ self.now }
    {
        self.items.as_slice()
    }

    /// A further owner of the same bytes. It takes no memory and copies none of them; `Memory` comes only where the count
    /// of owners is full, at 2^63 - 1.
    pub fn share(&self) -> Result<Bytes, AllocError>
        ensures { IfOk result (λ b. b ≡ self.now) }
    {
        let items = Arc::try_clone(&self.items)?;
        Ok(Bytes { items })
    }
}

/// The bytes of a name, which contracts see as their list. They may be any: whether they are a name that an entry can
/// have is for the command that is given it (docs/layout.md, "Names").
#[derive(Drop)]
pub struct Name {
    bytes: Bytes,
}

impl Model for Name {
    ghost use Rattle.std.specs.Prelude.{List, ℕ};

    ghost Value = { List ℕ };

    ghost view = { λ n. n.bytes };
}

impl Name {
    /// The name of these bytes, which are moved and not copied.
    pub fn from_vec(alloc: Global, bytes: Vec<u8>) -> Result<Name, AllocError>
        ensures { IfOk result (λ n. n ≡ bytes.items) }
    {
        let bytes = Bytes::from_vec(alloc, bytes)?;
        Ok(Name { bytes })
    }

    /// The bytes, to be read.
    pub fn as_slice(&self) -> &[u8]
        ensures { result.now ≡ self.now }
    {
        self.bytes.as_slice()
    }

    /// The same name in memory of its own.
    pub fn copy(&self, alloc: Global) -> Result<Name, AllocError>
        ensures { IfOk result (λ n. n ≡ self.now) }
    {
        let bytes = Vec::from_slice(alloc, self.as_slice())?;
        Name::from_vec(alloc, bytes)
    }

    /// A further owner of the same bytes. It takes no memory; `Memory` comes only where the count of owners is full, at
    /// 2^63 - 1.
    pub fn share(&self) -> Result<Name, AllocError>
        ensures { IfOk result (λ n. n ≡ self.now) }
    {
        let bytes = self.bytes.share()?;
        Ok(Name { bytes })
    }
}

/// What stands at a key: attributes at a stat key, a name and its target at an entry's, a byte at a body's
/// (docs/volume.md, "Content").
#[derive(Drop)]
pub enum Value {
    Attr(Attr),
    Entry(Name, Target),
    Byte(u8),
}
