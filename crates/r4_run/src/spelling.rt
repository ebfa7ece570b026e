//! By which text contracts name a job.

use r4_outside::Named;

/// A value that says in contracts which text spells a job. At run time it is nothing.
pub trait Spelling: Copy + Send {
    ghost use Rattle.std.specs.Prelude.{ℕ, List};

    /// The text.
    ghost text: { List ℕ };
}

impl Spelling for Named {
    ghost use Rattle.std.specs.Prelude.{[]};

    ghost text = { [] };
}
