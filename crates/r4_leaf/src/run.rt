//! Runs of bytes (docs/volume.md, "Leaves").

ghost use Rattle.std.specs.Prelude.{◌≡◌, ◌≤◌, ◌<◌, length, take, drop, slice_index, replicate, nat_eq, ◌==◌};

use std::marker::Model;

/// Bytes of a tail: some that are lent, or so many of one value, of which none is held.
#[derive(Drop)]
pub(crate) struct Run<'a> {
    bytes: RunBytes<'a>,
}

#[derive(Clone, Copy)]
enum RunBytes<'a> {
    Lent(&'a [u8]),
    Same(usize, u8),
}

impl<'a> Model for Run<'a> {
    ghost use Rattle.std.specs.Prelude.{List, ℕ};
    ghost use Rattle.r4_leaf.specs.Runs.{bytes_of_run};

    ghost Value = { List ℕ };

    ghost view = { λ r. bytes_of_run r.bytes };
}

impl<'a> Run<'a> {
    /// These bytes.
    pub(crate) fn lent(bytes: &'a [u8]) -> Run<'a>
        ensures { result ≡ bytes.now }
    {
        Run {
            bytes: RunBytes::Lent(bytes),
        }
    }

    /// So many bytes of one value.
    pub(crate) fn same(count: usize, byte: u8) -> Run<'a>
        ensures { result ≡ replicate count byte }
    {
        Run {
            bytes: RunBytes::Same(count, byte),
        }
    }

    /// How many they are.
    pub(crate) fn len(&self) -> usize
        ensures { result ≡ length self.now }
    {
        match self.bytes {
            RunBytes::Lent(bytes) => bytes.len(),
            RunBytes::Same(count, _) => count,
        }
    }

    /// Are there none?
    pub(crate) fn is_empty(&self) -> bool
        ensures { result ≡ (length self.now == 0) }
    {
        self.len() == 0
    }

    /// The first of them, so many.
    pub(crate) fn head(&self, count: usize) -> Run<'a>
        requires { count ≤ length self.now }
        ensures { result ≡ take count self.now }
    {
        match self.bytes {
            RunBytes::Lent(bytes) => Run::lent(&bytes[..count]),
            RunBytes::Same(_, byte) => Run::same(count, byte),
        }
    }

    /// All but so many at the beginning.
    pub(crate) fn tail(&self, count: usize) -> Run<'a>
        requires { count ≤ length self.now }
        ensures { result ≡ drop count self.now }
    {
        match self.bytes {
            RunBytes::Lent(bytes) => Run::lent(&bytes[count..]),
            RunBytes::Same(all, byte) => Run::same(all - count, byte),
        }
    }

    /// Writes them over as many bytes.
    pub(crate) fn write(&self, into: &mut [u8])
        requires { length into.old ≡ length self.now }
        ensures { into.new ≡ self.now }
    {
        match self.bytes {
            RunBytes::Lent(bytes) => into.copy_from_slice(bytes),
            RunBytes::Same(_, byte) => into.fill(byte),
        }
    }
}
