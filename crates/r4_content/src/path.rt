//! Paths of names.

ghost use Rattle.std.specs.Prelude.{◌≡◌, ◌↔◌, ◌<◌, All, IfOk, IsTrue};
ghost use Rattle.r4_content.specs.Fields.{HasBytes};

use r4_base::{Memory, Name};
use std::alloc::Global;
use std::marker::Model;

/// Names from the root down, which contracts see as the list of their lists of bytes. The path of no names is the root.
#[derive(Drop)]
pub struct Path {
    names: Vec<Name>,
}

impl Model for Path {
    ghost use Rattle.std.specs.Prelude.{List, ℕ};

    ghost Value = { List (List ℕ) };

    ghost view = { λ p. p.names.items };
}

impl Path {
    /// The path of these names, the one below the root first.
    pub fn from_vec(names: Vec<Name>) -> Path
        ensures { result ≡ names.items }
    {
        Path { names }
    }

    /// The names, to be read.
    pub fn as_slice(&self) -> &[Name]
        ensures { result.now ≡ self.now }
    {
        self.names.as_slice()
    }

    /// Its names are lists of bytes, as those of every path are. It changes nothing.
    pub fn lawful(&self)
        ensures { HasBytes self.now }
    {
        for name in self.as_slice() {
            are_bytes(name.as_slice());
        }
    }

    /// Whether the two paths have the same names.
    pub fn is_same(&self, other: &Path) -> bool
        ensures { IsTrue result ↔ (self.now ≡ other.now) }
    {
        are_same(self.as_slice(), other.as_slice())
    }

    /// The same path in memory of its own.
    pub fn copy(&self, alloc: Global) -> Result<Path, Memory>
        ensures { IfOk result (λ p. p ≡ self.now) }
    {
        let mut names = Vec::with_capacity(alloc, self.names.len())?;
        for name in self.as_slice() {
            names.push(name.copy(alloc)?)?;
        }
        Ok(Path { names })
    }
}

// Each byte is one.
fn are_bytes(bytes: &[u8])
    ensures { All (λ x. x < 256) bytes.now }
{}

// Whether these are the same names, one after another.
fn are_same(names: &[Name], others: &[Name]) -> bool
    ensures { IsTrue result ↔ (names.now ≡ others.now) }
{
    if names.len() != others.len() {
        return false;
    }
    for i in 0..names.len() {
        if names[i].as_slice() != others[i].as_slice() {
            return false;
        }
    }
    true
}
