//! Commands that take entries away (docs/commands.md, "Entries").

ghost use Rattle.std.specs.Prelude.{◌≡◌, ◌<◌, ◌+◌, ◌-◌, ◌^◌, slice_index, IfOk};
ghost use Rattle.r4_base.specs.Key.{rank};
ghost use Rattle.r4_base.specs.Name.{key_of_name};
ghost use Rattle.r4_base.specs.Volume.{byte_rank};
ghost use Rattle.r4_content.specs.Course.{ending};
ghost use Rattle.r4_content.specs.Edited.{and_also};
ghost use Rattle.r4_content.specs.Entries.{rmdir, unlink, unname_in};
ghost use Rattle.r4_content.specs.Held.{ending_of, interval_of, pairs_of};
ghost use Rattle.r4_content.specs.Meaning.{named};
ghost use Rattle.r4_content.specs.Objects.{unnamed};
ghost use Rattle.r4_content.specs.Seen.{Rises, of_seen};
ghost use Rattle.r4_content.specs.declared.reply.Reply.TheVariants.{Okay};
ghost use Rattle.r4_dir.specs.Changes.{edits_made};
ghost use Rattle.r4_dir.specs.Coming.{IsSmall, object_of};

use crate::attributes::{entry_less, link_less};
use crate::editing::{Changes, answer, edits, no_changes, stat_key};
use crate::entries::has_entries;
use crate::object::Object;
use crate::ways::{OfRoot, entry_of, is_dir, is_legal};
use r4_base::{Key, Memory, Name, Value};
use r4_content::{Edits, Interval, Reply, Seen};
use std::alloc::Global;

/// The next key.
#[tactic(auto, unfolding(r4_base::specs::Key::rank))]
fn next_key(key: Key) -> Key
    requires { slice_index key.el 0 < 2 ^ 64 - 1 }
    ensures { rank result ≡ rank key + 1 }
{
    let [el0, el1, el2, el3] = key.el;
    let el = if el3 < u64::MAX {
        [el0, el1, el2, el3 + 1]
    } else if el2 < u64::MAX {
        [el0, el1, el2 + 1, 0]
    } else if el1 < u64::MAX {
        [el0, el1 + 1, 0, 0]
    } else {
        [el0 + 1, 0, 0, 0]
    };
    Key { el }
}

/// A key alone.
pub(crate) fn one(key: Key) -> Interval
    requires { slice_index key.el 0 < 2 ^ 64 - 1 }
    ensures { interval_of result ≡ (rank key, rank key + 1) }
{
    Interval {
        from: key,
        to: next_key(key),
    }
}

/// An object's name in a directory goes; `key` is the name's.
pub(crate) fn unname_in(
    alloc: Global,
    dir: &Object,
    key: Key,
    name: &Name,
    object: &Object,
) -> Result<Edits, Memory>
    requires key { key ≡ key_of_name dir.now.target.oid.0 name.now }
    requires dir { IsSmall dir.now }
    requires object { IsSmall object.now }
    ensures { IfOk result (λ e. ending_of e
        ≡ record {
          edits = unname_in (object_of dir.now) name.now
              (object_of object.now);
          reply = Okay;
        }) }
{
    let less = entry_less(is_dir(object), dir.attr);
    let mut changes = no_changes(alloc);
    changes.cuts.push(one(key))?;
    changes.puts.push((stat_key(dir), Value::Attr(less)))?;
    let changes = with_unnamed(changes, object)?;
    Ok(edits(alloc, changes))
}

/// An entry that names the object goes: a directory goes with it, and with the last one a file goes with its bytes.
pub(crate) fn with_unnamed(changes: Changes, object: &Object) -> Result<Changes, Memory>
    requires { IsSmall object.now }
    ensures { IfOk result (λ c. edits_made c
        ≡ and_also (edits_made changes) (unnamed (object_of object.now))) }
{
    let mut changes = changes;
    let stat = stat_key(object);
    if is_dir(object) {
        changes.cuts.push(one(stat))?;
    } else if object.attr.nlink <= 1 {
        changes.cuts.push(one(stat))?;
        changes.cuts.push(body_of(object))?;
    } else {
        let attr = Value::Attr(link_less(object.attr));
        changes.puts.push((stat, attr))?;
    }
    Ok(changes)
}

// The keys of a file's bytes.
fn body_of(object: &Object) -> Interval
    requires { IsSmall object.now }
    ensures { interval_of result
        ≡ (byte_rank object.now.target 0, byte_rank object.now.target object.now.attr.size) }
{
    let target = object.target;
    Interval {
        from: Key::body(target.locality, target.ordering, target.oid, 0),
        to: Key::body(
            target.locality,
            target.ordering,
            target.oid,
            object.attr.size,
        ),
    }
}

/// What `unlink` changes.
pub fn plan_unlink(alloc: Global, path: &[Name], seen: &Seen) -> Result<Edits, Memory>
    requires { Rises (pairs_of seen.now) }
    ensures { IfOk result (λ e. ending_of e
        ≡ ending (named path.now (unlink path.now)) (of_seen (pairs_of seen.now))) }
{
    if !is_legal(path) {
        return Ok(answer(alloc, Reply::Name));
    }
    match entry_of(alloc, seen, path, OfRoot::Isdir)? {
        Ok(found) => {
            if is_dir(&found.object) {
                return Ok(answer(alloc, Reply::Isdir));
            }
            let name = &path[path.len() - 1];
            unname_in(alloc, &found.dir, found.key, name, &found.object)
        }
        Err(reply) => Ok(answer(alloc, reply)),
    }
}

/// What `rmdir` changes.
pub fn plan_rmdir(alloc: Global, path: &[Name], seen: &Seen) -> Result<Edits, Memory>
    requires { Rises (pairs_of seen.now) }
    ensures { IfOk result (λ e. ending_of e
        ≡ ending (named path.now (rmdir path.now)) (of_seen (pairs_of seen.now))) }
{
    if !is_legal(path) {
        return Ok(answer(alloc, Reply::Name));
    }
    match entry_of(alloc, seen, path, OfRoot::Loop)? {
        Ok(found) => {
            if !is_dir(&found.object) {
                return Ok(answer(alloc, Reply::Notdir));
            }
            if has_entries(seen, found.object.target.oid) {
                return Ok(answer(alloc, Reply::Notempty));
            }
            let name = &path[path.len() - 1];
            unname_in(alloc, &found.dir, found.key, name, &found.object)
        }
        Err(reply) => Ok(answer(alloc, reply)),
    }
}
