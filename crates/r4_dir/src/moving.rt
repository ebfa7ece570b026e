//! The command that moves entries (docs/commands.md, "Entries").

ghost use Rattle.std.specs.Prelude.{◌≡◌, ◌<◌, Some, ◌&&◌, ◌||◌, not, length, map, IfOk};
ghost use Rattle.std.specs.Prelude.{MatchResult};
ghost use Rattle.r4_base.specs.Name.{key_of_name, name_fault};
ghost use Rattle.r4_base.specs.Volume.{is_directory};
ghost use Rattle.r4_content.specs.Course.{ending};
ghost use Rattle.r4_content.specs.Edited.{and_also};
ghost use Rattle.r4_content.specs.Entries.{move, move_to, moved, rename, replace, set_parents};
ghost use Rattle.r4_content.specs.Held.{ending_of, pairs_of};
ghost use Rattle.r4_content.specs.Meaning.{named};
ghost use Rattle.r4_content.specs.Objects.{is_among, is_dir, is_full, is_same, is_same_target};
ghost use Rattle.r4_content.specs.Seen.{Rises, of_seen};
ghost use Rattle.r4_dir.specs.Changes.{edits_made};
ghost use Rattle.r4_dir.specs.Coming.{AreNames, ComesEnds, IsSmall, StopsEnds, last_of, object_of};
ghost use Rattle.r4_dir.specs.Finding.{named_of};

use crate::attributes::{entry_less, entry_more};
use crate::editing::{Changes, answer, edits, no_changes, stat_key};
use crate::entries::has_entries;
use crate::finding::{SeenEntry, entry_at};
use crate::object::{Object, Place};
use crate::removing::{one, with_unnamed};
use crate::ways::{OfRoot, entry_of, is_dir, is_full, is_legal, name_key, object_at, parent_of};
use r4_base::{Key, Memory, Name, Target, Value};
use r4_content::{Edits, Reply, Seen};
use std::alloc::Global;

/// Whether two targets are one.
pub fn is_same_target(target: Target, other: Target) -> bool
    ensures { result ≡ is_same_target target other }
{
    target.locality == other.locality
        && target.ordering == other.ordering
        && target.oid == other.oid
}

// Two objects are one.
fn is_same(object: &Object, other: &Object) -> bool
    ensures { result ≡ is_same (object_of object.now) (object_of other.now) }
{
    is_same_target(object.target, other.target)
}

// The object is among these.
fn is_among(object: &Object, above: &[Object]) -> bool
    ensures { result ≡ is_among (object_of object.now) (map object_of above.now) }
{
    for other in above {
        if is_same(object, other) {
            return true;
        }
    }
    false
}

/// Whether an object is a directory on the way to a place, or that place.
pub fn is_loop(object: &Object, above: &[Object], here: &Object) -> bool
    ensures { result ≡ (is_dir (object_of object.now)
        && (is_among (object_of object.now) (map object_of above.now)
        || is_same (object_of object.now) (object_of here.now))) }
{
    is_dir(object) && (is_among(object, above) || is_same(object, here))
}

/// An object that moves with its entry, the directory that it moves to, and the key of its name there.
#[derive(Clone, Copy, Debug, PartialEq, Eq)]
pub struct Ends {
    pub dir: Object,
    pub key: Key,
    pub object: Object,
    pub new_dir: Object,
    pub new_key: Key,
}

// The object that moves, and where to; or the reply where it does not.
fn ends_of(
    alloc: Global,
    seen: &Seen,
    from: &[Name],
    to: &[Name],
) -> Result<Result<Ends, Reply>, Memory>
    requires rises { Rises (pairs_of seen.now) }
    requires legal { AreNames from.now × AreNames to.now }
    requires some { 0 < length to.now }
    ensures small { IfOk result (λ r. IfOk r (λ e. IsSmall e.dir × IsSmall e.object
        × IsSmall e.new_dir × (0 < length from.now))) }
    ensures key { IfOk result (λ r. IfOk r (λ e. e.key
        ≡ key_of_name e.dir.target.oid.0 (last_of from.now))) }
    ensures new_key { IfOk result (λ r. IfOk r (λ e. e.new_key
        ≡ key_of_name e.new_dir.target.oid.0 (last_of to.now))) }
    ensures comes { IfOk result (λ r. MatchResult r
        (λ e. ComesEnds from.now to.now (pairs_of seen.now) (object_of e.dir) (object_of e.object)
        (object_of e.new_dir)) (λ f. StopsEnds from.now to.now (pairs_of seen.now) f)) }
{
    let found = match entry_of(alloc, seen, from, OfRoot::Loop)? {
        Ok(found) => found,
        Err(reply) => return Ok(Err(reply)),
    };
    let place = match parent_of(alloc, seen, to)? {
        Ok(place) => place,
        Err(reply) => return Ok(Err(reply)),
    };
    let new_dir = place.here;
    if !is_dir(&new_dir) {
        return Ok(Err(Reply::Notdir));
    }
    if is_loop(&found.object, place.above.as_slice(), &new_dir) {
        return Ok(Err(Reply::Loop));
    }
    Ok(Ok(Ends {
        dir: found.dir,
        key: found.key,
        object: found.object,
        new_dir,
        new_key: name_key(new_dir.target.oid, &to[to.len() - 1]),
    }))
}

// The attributes of the two directories of a move change, too.
fn with_parents(changes: Changes, ends: &Ends) -> Result<Changes, Memory>
    requires { IsSmall ends.now.dir × IsSmall ends.now.new_dir }
    ensures { IfOk result (λ c. edits_made c
        ≡ and_also (edits_made changes) (set_parents (object_of ends.now.dir)
        (object_of ends.now.new_dir) (is_directory ends.now.object.attr))) }
{
    let mut changes = changes;
    let of_directory = is_dir(&ends.object);
    let stat = stat_key(&ends.new_dir);
    let less = entry_less(of_directory, ends.dir.attr);
    if is_same(&ends.dir, &ends.new_dir) {
        let less = entry_less(of_directory, ends.new_dir.attr);
        let same = entry_more(of_directory, less);
        changes.puts.push((stat, Value::Attr(same)))?;
    } else {
        let more = entry_more(of_directory, ends.new_dir.attr);
        changes.puts.push((stat_key(&ends.dir), Value::Attr(less)))?;
        changes.puts.push((stat, Value::Attr(more)))?;
    }
    Ok(changes)
}

// The entry leaves one directory and comes to the other, too.
fn with_move(changes: Changes, ends: &Ends, name: &Name, new_name: &Name) -> Result<Changes, Memory>
    requires key { ends.now.key ≡ key_of_name ends.now.dir.target.oid.0 name.now }
    requires new_key { ends.now.new_key ≡ key_of_name ends.now.new_dir.target.oid.0 new_name.now }
    requires small { IsSmall ends.now.dir × IsSmall ends.now.new_dir }
    ensures { IfOk result (λ c. edits_made c
        ≡ and_also (edits_made changes) (moved (object_of ends.now.dir) name.now
        (object_of ends.now.object) (object_of ends.now.new_dir) new_name.now)) }
{
    let mut changes = changes;
    let entry = Value::Entry(new_name.share()?, ends.object.target);
    changes.cuts.push(one(ends.key))?;
    changes.puts.push((ends.new_key, entry))?;
    with_parents(changes, ends)
}

// A directory comes to another one that has no room for its link.
fn is_full_move(ends: &Ends) -> bool
    ensures { result ≡ (is_dir (object_of ends.now.object)
        && not (is_same (object_of ends.now.dir) (object_of ends.now.new_dir))
        && is_full (object_of ends.now.new_dir)) }
{
    is_dir(&ends.object) && !is_same(&ends.dir, &ends.new_dir) && is_full(&ends.new_dir)
}

// What a move onto an object changes.
fn plan_onto(
    alloc: Global,
    seen: &Seen,
    ends: &Ends,
    name: &Name,
    new_name: &Name,
    old: &Object,
) -> Result<Edits, Memory>
    requires key { ends.now.key ≡ key_of_name ends.now.dir.target.oid.0 name.now }
    requires new_key { ends.now.new_key ≡ key_of_name ends.now.new_dir.target.oid.0 new_name.now }
    requires small { IsSmall ends.now.dir × IsSmall ends.now.new_dir × IsSmall old.now }
    ensures { IfOk result (λ e. ending_of e
        ≡ ending (replace (object_of ends.now.dir) name.now (object_of ends.now.object)
        (object_of ends.now.new_dir) new_name.now (object_of old.now)) (of_seen
        (pairs_of seen.now))) }
{
    let of_directory = is_dir(old);
    if is_dir(&ends.object) {
        if !of_directory {
            return Ok(answer(alloc, Reply::Notdir));
        }
        if has_entries(seen, old.target.oid) {
            return Ok(answer(alloc, Reply::Notempty));
        }
    } else if of_directory {
        return Ok(answer(alloc, Reply::Isdir));
    }
    let new_dir = Object {
        attr: entry_less(of_directory, ends.new_dir.attr),
        ..ends.new_dir
    };
    let changes = with_unnamed(no_changes(alloc), old)?;
    let changes = with_move(changes, &Ends { new_dir, ..*ends }, name, new_name)?;
    Ok(edits(alloc, changes))
}

// What a move changes where the new name's key is taken.
fn plan_taken(
    alloc: Global,
    seen: &Seen,
    ends: &Ends,
    name: &Name,
    new_name: &Name,
    entry: &SeenEntry<'_>,
) -> Result<Edits, Memory>
    requires rises { Rises (pairs_of seen.now) }
    requires key { ends.now.key ≡ key_of_name ends.now.dir.target.oid.0 name.now }
    requires new_key { ends.now.new_key ≡ key_of_name ends.now.new_dir.target.oid.0 new_name.now }
    requires small { IsSmall ends.now.dir × IsSmall ends.now.new_dir }
    ensures { IfOk result (λ e. ending_of e
        ≡ ending (move_to (object_of ends.now.dir) name.now (object_of ends.now.object)
        (object_of ends.now.new_dir) new_name.now (Some (named_of entry.now))) (of_seen
        (pairs_of seen.now))) }
{
    if entry.name.as_slice() != new_name.as_slice() {
        let other = entry.name.share()?;
        return Ok(answer(alloc, Reply::Clash { other }));
    }
    if is_same_target(entry.target, ends.object.target) {
        return Ok(answer(alloc, Reply::Okay));
    }
    match object_at(seen, entry.target) {
        Some(old) => plan_onto(alloc, seen, ends, name, new_name, &old),
        None => Ok(answer(alloc, Reply::Absent)),
    }
}

// What a move changes.
fn plan_move(
    alloc: Global,
    seen: &Seen,
    ends: &Ends,
    name: &Name,
    new_name: &Name,
) -> Result<Edits, Memory>
    requires rises { Rises (pairs_of seen.now) }
    requires key { ends.now.key ≡ key_of_name ends.now.dir.target.oid.0 name.now }
    requires new_key { ends.now.new_key ≡ key_of_name ends.now.new_dir.target.oid.0 new_name.now }
    requires small { IsSmall ends.now.dir × IsSmall ends.now.new_dir }
    ensures { IfOk result (λ e. ending_of e
        ≡ ending (move (object_of ends.now.dir) name.now (object_of ends.now.object)
        (object_of ends.now.new_dir) new_name.now) (of_seen (pairs_of seen.now))) }
{
    if let Some(entry) = entry_at(seen, ends.new_key) {
        return plan_taken(alloc, seen, ends, name, new_name, &entry);
    }
    if is_full_move(ends) {
        return Ok(answer(alloc, Reply::Links));
    }
    let changes = with_move(no_changes(alloc), ends, name, new_name)?;
    Ok(edits(alloc, changes))
}

/// What `rename` changes.
pub fn plan_rename(alloc: Global, from: &[Name], to: &[Name], seen: &Seen) -> Result<Edits, Memory>
    requires { Rises (pairs_of seen.now) }
    ensures { IfOk result (λ e. ending_of e
        ≡ ending (named from.now (named to.now (rename from.now to.now))) (of_seen
        (pairs_of seen.now))) }
{
    if !is_legal(from) || !is_legal(to) {
        return Ok(answer(alloc, Reply::Name));
    }
    if to.is_empty() {
        return Ok(answer(alloc, Reply::Loop));
    }
    match ends_of(alloc, seen, from, to)? {
        Ok(ends) => plan_move(alloc, seen, &ends, &from[from.len() - 1], &to[to.len() - 1]),
        Err(reply) => Ok(answer(alloc, reply)),
    }
}
