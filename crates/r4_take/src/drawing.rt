//! Numbers are drawn for a command.

ghost use Rattle.std.specs.Prelude.{◌≡◌, ◌+◌, ◌^◌, ◌≤◌, MatchOption, None, if◌then◌else◌, min};
ghost use Rattle.r4_seal.specs.r4_trace.Ids.{no_id};
ghost use Rattle.r4_take.specs.Drawing.{draws_for, names_drawn};

use r4_base::{OBJECT_END, Oid};
use r4_cell::Fresh;
use r4_seal::Numbers;
use r4_turns::Numbers as Drawn;

/// How many numbers for new cells are drawn for a command, once: so many that they last.
const NAMES_DRAWN: u64 = 64 + 1_048_576;

/// The greatest number that no object has.
const NO_ID: u64 = OBJECT_END - 1;

/// The numbers that a command gets, and those that are drawn next then.
#[derive(Clone, Copy, Debug, PartialEq, Eq)]
pub struct Draws {
    pub own: Drawn,
    pub next: Numbers,
}

/// The numbers of a command: those that are kept for it, or else new ones, the next id among them
/// where it makes an object. None exactly where none are kept, and so many more numbers for new
/// cells would not be of 64 bits.
pub fn numbers_for(kept: Option<Drawn>, next: Numbers, makes_object: bool) -> Option<Draws>
    ensures { MatchOption result
        ((kept ≡ None) × (2 ^ 64 ≤ next.next_name + names_drawn))
        (λ d. d ≡ draws_for kept next makes_object) }
{
    if let Some(own) = kept {
        return Some(Draws { own, next });
    }
    let end = next.next_name.checked_add(NAMES_DRAWN)?;
    let own = Drawn {
        oid: Oid(next.next_oid),
        fresh: Fresh {
            next: next.next_name,
            end,
        },
    };
    Some(Draws {
        own,
        next: Numbers {
            next_oid: next_oid(next.next_oid, makes_object),
            next_name: end,
        },
    })
}

// The id that is drawn next, once this one is drawn, if it is.
fn next_oid(oid: u64, is_drawn: bool) -> u64
    ensures { result ≡ (if is_drawn then min (oid + 1) no_id else oid) }
{
    if is_drawn {
        oid.saturating_add(1).min(NO_ID)
    } else {
        oid
    }
}
