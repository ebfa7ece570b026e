//! Where text comes from.

ghost use Rattle.std.specs.Prelude.{◌≡◌};
ghost use Rattle.r4_outside.specs.Source.{SourceState, Takes};

use crate::Failed;

/// Gives bytes in order, up to their end.
pub trait Source {
    /// What the source tells of itself.
    ghost state: { Self → SourceState };

    /// Takes a prefix of the bytes that are still to come into the start of the slice, and says how many these are. For
    /// a slice that is not empty 0 means the end. After `Failed` the content of `into` is open, and what is still to
    /// come is too.
    fn read(&mut self, into: &mut [u8]) -> Result<usize, Failed>
        ensures { Takes into.old into.new (state self.old) result (state self.new) };

    /// The number of calls that failed, which stands still at 2^64 - 1.
    fn faults(&self) -> u64
        ensures { result ≡ (state self.now).faults };
}
