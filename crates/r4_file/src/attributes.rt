//! Commands on attributes (docs/commands.md, "What each command does").

ghost use Rattle.std.specs.Prelude.{◌≡◌, IfOk};
ghost use Rattle.r4_content.specs.Course.{ending};
ghost use Rattle.r4_content.specs.Held.{ending_of, pairs_of};
ghost use Rattle.r4_content.specs.Meaning.{chmod, chown, named, stat, times};
ghost use Rattle.r4_content.specs.Seen.{Rises, of_seen};

use r4_base::{Attr, Memory, Name};
use r4_content::{Edits, Reply, Seen};
use r4_dir::{answer, is_legal, set_attr, walk_to};
use std::alloc::Global;

/// What `stat` answers. Nothing changes.
pub fn plan_stat(alloc: Global, path: &[Name], seen: &Seen) -> Result<Edits, Memory>
    requires { Rises (pairs_of seen.now) }
    ensures { IfOk result (λ e. ending_of e
        ≡ ending (named path.now (stat path.now)) (of_seen (pairs_of seen.now))) }
{
    if !is_legal(path) {
        return Ok(answer(alloc, Reply::Name));
    }
    match walk_to(alloc, seen, path)? {
        Ok(place) => {
            let attr = place.here.attr;
            Ok(answer(alloc, Reply::Attr { attr }))
        }
        Err(reply) => Ok(answer(alloc, reply)),
    }
}

/// What `chmod` changes: the low 12 bits of the mode become those of `mode`.
pub fn plan_chmod(alloc: Global, path: &[Name], mode: u16, seen: &Seen) -> Result<Edits, Memory>
    requires { Rises (pairs_of seen.now) }
    ensures { IfOk result (λ e. ending_of e
        ≡ ending (named path.now (chmod path.now mode)) (of_seen (pairs_of seen.now))) }
{
    if !is_legal(path) {
        return Ok(answer(alloc, Reply::Name));
    }
    match walk_to(alloc, seen, path)? {
        Ok(place) => {
            let attr = Attr {
                mode: place.here.attr.mode / 4096 * 4096 + mode % 4096,
                ..place.here.attr
            };
            set_attr(alloc, &place.here, attr)
        }
        Err(reply) => Ok(answer(alloc, reply)),
    }
}

/// What `chown` changes: the owner and the group become these.
pub fn plan_chown(
    alloc: Global,
    path: &[Name],
    uid: u32,
    gid: u32,
    seen: &Seen,
) -> Result<Edits, Memory>
    requires { Rises (pairs_of seen.now) }
    ensures { IfOk result (λ e. ending_of e
        ≡ ending (named path.now (chown path.now uid gid)) (of_seen (pairs_of seen.now))) }
{
    if !is_legal(path) {
        return Ok(answer(alloc, Reply::Name));
    }
    match walk_to(alloc, seen, path)? {
        Ok(place) => {
            let attr = Attr {
                uid,
                gid,
                ..place.here.attr
            };
            set_attr(alloc, &place.here, attr)
        }
        Err(reply) => Ok(answer(alloc, reply)),
    }
}

/// What `times` changes: the times of the last access, the last write and the last change, in seconds, become these.
pub fn plan_times(
    alloc: Global,
    path: &[Name],
    atime: u32,
    mtime: u32,
    ctime: u32,
    seen: &Seen,
) -> Result<Edits, Memory>
    requires { Rises (pairs_of seen.now) }
    ensures { IfOk result (λ e. ending_of e
        ≡ ending (named path.now (times path.now atime mtime ctime)) (of_seen
        (pairs_of seen.now))) }
{
    if !is_legal(path) {
        return Ok(answer(alloc, Reply::Name));
    }
    match walk_to(alloc, seen, path)? {
        Ok(place) => {
            let attr = Attr {
                atime,
                mtime,
                ctime,
                ..place.here.attr
            };
            set_attr(alloc, &place.here, attr)
        }
        Err(reply) => Ok(answer(alloc, reply)),
    }
}
