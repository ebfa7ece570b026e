//! With what a run began, as contracts name it.

/// A run of which contracts name what the call says that it is passed to. For proofs and tests.
pub use std::marker::Brand as Named;

/// A value that says in contracts with what a run began. Each of the four things may be left out. At run time it is
/// nothing.
pub trait Run: Copy + Send {
    ghost use Rattle.std.specs.Prelude.{ℕ, List, Option};
    ghost use Rattle.std.specs.Borrow.{GName};
    ghost use Rattle.r4_base.specs.Image.{Image};

    /// The image that the device held.
    ghost start: { Option Image };

    /// The device's clock.
    ghost clock: { Option ℕ };

    /// The text of the scripts.
    ghost scripts: { Option (List ℕ) };

    /// To whom the device goes back, the latest borrow first: to nobody, where it is not borrowed.
    ghost lender: { Option (List GName) };
}

/// Names nothing.
#[derive(Clone, Copy, Debug, PartialEq, Eq)]
pub struct Unnamed;

impl Unnamed {
    /// A run of which nothing is named.
    pub fn new() -> Unnamed {
        Unnamed
    }
}

impl Run for Unnamed {
    ghost use Rattle.std.specs.Prelude.{None};

    ghost start = { None };

    ghost clock = { None };

    ghost scripts = { None };

    ghost lender = { None };
}

/// How a `Named` is made.
pub trait NamedNew {
    /// A run whose names are picked at the call that it is passed to.
    fn new() -> Self;
}

impl NamedNew for Named {
    fn new() -> Named {
        Named
    }
}

impl Run for Named {
    ghost use Rattle.std.specs.Prelude.{None};

    ghost start = { None };

    ghost clock = { None };

    ghost scripts = { None };

    ghost lender = { None };
}
