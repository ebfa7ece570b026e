//! Commands that make objects and entries (docs/commands.md, "Entries").

ghost use Rattle.std.specs.Prelude.{◌≡◌, IfOk};
ghost use Rattle.r4_content.specs.Course.{ending};
ghost use Rattle.r4_content.specs.Entries.{create, link, mkdir};
ghost use Rattle.r4_content.specs.Held.{ending_of, pairs_of};
ghost use Rattle.r4_content.specs.Meaning.{named};
ghost use Rattle.r4_content.specs.Objects.{newborn};
ghost use Rattle.r4_content.specs.Seen.{Rises, of_seen};
ghost use Rattle.r4_dir.specs.Coming.{object_of};

use crate::attributes::link_more;
use crate::editing::{answer, name_in};
use crate::object::Object;
use crate::ways::{free_in, is_dir, is_full, is_legal, walk_to};
use r4_base::{Attr, Memory, Name, OBJECT_END, Oid, Target};
use r4_content::{Edits, Reply, Seen};
use std::alloc::Global;

/// From this id on no object is made.
const FIRST_UNGIVEN_ID: u64 = OBJECT_END - 1;

/// The attributes of an object that is made.
fn newborn(mode: u16, nlink: u32) -> Attr
    ensures { result ≡ newborn mode nlink }
{
    Attr {
        mode,
        nlink,
        size: 0,
        uid: 0,
        gid: 0,
        atime: 0,
        mtime: 0,
        ctime: 0,
        bytes: 0,
    }
}

/// What `create` changes.
pub fn plan_create(alloc: Global, path: &[Name], oid: Oid, seen: &Seen) -> Result<Edits, Memory>
    requires { Rises (pairs_of seen.now) }
    ensures { IfOk result (λ e. ending_of e
        ≡ ending (named path.now (create path.now oid)) (of_seen (pairs_of seen.now))) }
{
    if !is_legal(path) {
        return Ok(answer(alloc, Reply::Name));
    }
    match free_in(alloc, seen, path)? {
        Ok(free) => {
            if oid.0 >= FIRST_UNGIVEN_ID {
                return Ok(answer(alloc, Reply::Oids));
            }
            let target = Target {
                locality: free.dir.target.oid.0,
                ordering: free.key.el[1],
                oid,
            };
            let object = Object {
                target,
                attr: newborn(0o100_644, 1),
            };
            name_in(alloc, &free.dir, free.key, &path[path.len() - 1], &object)
        }
        Err(reply) => Ok(answer(alloc, reply)),
    }
}

/// What `mkdir` changes.
pub fn plan_mkdir(alloc: Global, path: &[Name], oid: Oid, seen: &Seen) -> Result<Edits, Memory>
    requires { Rises (pairs_of seen.now) }
    ensures { IfOk result (λ e. ending_of e
        ≡ ending (named path.now (mkdir path.now oid)) (of_seen (pairs_of seen.now))) }
{
    if !is_legal(path) {
        return Ok(answer(alloc, Reply::Name));
    }
    match free_in(alloc, seen, path)? {
        Ok(free) => {
            if is_full(&free.dir) {
                return Ok(answer(alloc, Reply::Links));
            }
            if oid.0 >= FIRST_UNGIVEN_ID {
                return Ok(answer(alloc, Reply::Oids));
            }
            let target = Target {
                locality: free.dir.target.oid.0,
                ordering: free.key.el[1],
                oid,
            };
            let object = Object {
                target,
                attr: newborn(0o40755, 2),
            };
            name_in(alloc, &free.dir, free.key, &path[path.len() - 1], &object)
        }
        Err(reply) => Ok(answer(alloc, reply)),
    }
}

/// What `link` changes.
pub fn plan_link(alloc: Global, from: &[Name], to: &[Name], seen: &Seen) -> Result<Edits, Memory>
    requires { Rises (pairs_of seen.now) }
    ensures { IfOk result (λ e. ending_of e
        ≡ ending (named from.now (named to.now (link from.now to.now))) (of_seen
        (pairs_of seen.now))) }
{
    if !is_legal(from) || !is_legal(to) {
        return Ok(answer(alloc, Reply::Name));
    }
    let file = match walk_to(alloc, seen, from)? {
        Ok(place) => place.here,
        Err(reply) => return Ok(answer(alloc, reply)),
    };
    if is_dir(&file) {
        return Ok(answer(alloc, Reply::Isdir));
    }
    match free_in(alloc, seen, to)? {
        Ok(free) => {
            if is_full(&file) {
                return Ok(answer(alloc, Reply::Links));
            }
            let linked = Object {
                attr: link_more(file.attr),
                ..file
            };
            name_in(alloc, &free.dir, free.key, &to[to.len() - 1], &linked)
        }
        Err(reply) => Ok(answer(alloc, reply)),
    }
}
