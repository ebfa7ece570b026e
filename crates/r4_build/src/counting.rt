//! How many objects a command makes and takes away (docs/commands.md, "Objects born and gone").

ghost use Rattle.std.specs.Prelude.{◌≡◌, ◌==◌, ◌&&◌, if◌then◌else◌};
ghost use Rattle.r4_base.specs.Key.{key_of_rank, minor_of, rank};
ghost use Rattle.r4_content.specs.Counts.{is_okay, stats_in};
ghost use Rattle.r4_content.specs.Held.{edits_of};
ghost use Rattle.r4_content.specs.Meaning.{makes_object};

use r4_base::Key;
use r4_content::{Command, Edits, Reply};

/// The minor type of stat data's keys.
const STAT_DATA: u64 = 1;

/// How many minor types there may be.
const MINORS: u64 = 16;

/// How many objects a command makes, and how many it takes away (docs/commands.md, "Objects born and gone").
#[derive(Clone, Copy, Debug, PartialEq, Eq)]
pub struct ObjectCounts {
    pub born: u64,
    pub gone: u64,
}

impl ObjectCounts {
    /// How many objects a command makes and takes away that ends with these edits and their reply (docs/commands.md,
    /// "Objects born and gone").
    pub fn of(command: &Command, edits: &Edits) -> ObjectCounts
        ensures born { result.born
            ≡ (if makes_object command.now && is_okay edits.now.reply then 1 else 0) }
        ensures gone { result.gone ≡ stats_in (edits_of edits.now).cuts }
    {
        ObjectCounts {
            born: born(command, &edits.reply),
            gone: gone(edits),
        }
    }
}

// How many objects a command makes that has this reply.
fn born(command: &Command, reply: &Reply) -> u64
    ensures { result ≡ (if makes_object command.now && is_okay reply.now then 1 else 0) }
{
    if command.makes_object() && matches!(*reply, Reply::Okay) {
        1
    } else {
        0
    }
}

// How many objects go with edits: one with each stat key that they take away.
fn gone(edits: &Edits) -> u64
    ensures { result ≡ stats_in (edits_of edits.now).cuts }
{
    let cuts = edits.cuts.as_slice().iter();
    cuts.filter(|cut| is_stat(cut.from)).count() as u64
}

// Whether a key is that of stat data.
fn is_stat(key: Key) -> bool
    ensures { result ≡ (minor_of (key_of_rank (rank key)) == 1) }
{
    key.el[0] % MINORS == STAT_DATA
}
