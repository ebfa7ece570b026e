//! Where text goes.

ghost use Rattle.std.specs.Prelude.{◌≡◌};
ghost use Rattle.r4_outside.specs.Sink.{SinkState, Appends};

use crate::Failed;

/// Takes bytes in order.
pub trait Sink {
    /// What the sink tells of itself.
    ghost state: { Self → SinkState };

    /// Appends all the bytes, or after `Failed` a prefix of them.
    fn write(&mut self, bytes: &[u8]) -> Result<(), Failed>
        ensures { Appends bytes.now (state self.old) result (state self.new) };

    /// The number of calls that failed, which stands still at 2^64 - 1.
    fn faults(&self) -> u64
        ensures { result ≡ (state self.now).faults };
}
