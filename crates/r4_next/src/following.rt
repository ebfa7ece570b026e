//! What comes next in a script.

ghost use Rattle.std.specs.Prelude.{◌≡◌};
ghost use Rattle.std.specs.Option.{option_copied};
ghost use Rattle.r4_next.specs.Following.{what_follows as kind_of};

use r4_content::Command;

/// What comes next in a script: nothing, a command that turns its transactions, `commit`, or work.
#[derive(Clone, Copy, Debug, PartialEq, Eq)]
pub(crate) enum Following {
    Nothing,
    Begin,
    End,
    Commit,
    Work,
}

// What its next command is, if it has one.
pub(crate) fn what_follows(next: Option<&Command>) -> Following
    ensures { result ≡ kind_of (option_copied next.entry) }
{
    match next {
        None => Following::Nothing,
        Some(Command::Begin) => Following::Begin,
        Some(Command::End) => Following::End,
        Some(Command::Commit) => Following::Commit,
        Some(_) => Following::Work,
    }
}
