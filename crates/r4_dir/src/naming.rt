//! The command that tells the names in a directory (docs/commands.md, "Entries").

ghost use Rattle.std.specs.Prelude.{◌≡◌, IfOk};
ghost use Rattle.r4_content.specs.Course.{ending};
ghost use Rattle.r4_content.specs.Entries.{names};
ghost use Rattle.r4_content.specs.Held.{ending_of, pairs_of};
ghost use Rattle.r4_content.specs.Meaning.{named};
ghost use Rattle.r4_content.specs.Seen.{Rises, of_seen};

use crate::editing::answer;
use crate::entries::names_of;
use crate::ways::{is_dir, is_legal, walk_to};
use r4_base::{Memory, Name};
use r4_content::{Edits, Names, Reply, Seen};
use std::alloc::Global;

/// What `names` answers.
pub fn plan_names(alloc: Global, path: &[Name], seen: &Seen) -> Result<Edits, Memory>
    requires { Rises (pairs_of seen.now) }
    ensures { IfOk result (λ e. ending_of e
        ≡ ending (named path.now (names path.now)) (of_seen (pairs_of seen.now))) }
{
    if !is_legal(path) {
        return Ok(answer(alloc, Reply::Name));
    }
    match walk_to(alloc, seen, path)? {
        Ok(place) => {
            if !is_dir(&place.here) {
                return Ok(answer(alloc, Reply::Notdir));
            }
            let found = names_of(alloc, seen, place.here.target.oid)?;
            let names = Names::from_vec(alloc, found)?;
            Ok(answer(alloc, Reply::Names { names }))
        }
        Err(reply) => Ok(answer(alloc, reply)),
    }
}
