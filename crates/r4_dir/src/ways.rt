//! The ways of commands to the objects that they name (docs/commands.md, "Ways").

ghost use Rattle.std.specs.Option.{is_none};
ghost use Rattle.std.specs.FinMap.{find};
ghost use Rattle.std.specs.Ordering.{nat_cmp};
ghost use Rattle.std.specs.Prelude.{◌≡◌, ◌<◌, ◌^◌, ◌++◌, ◌∷◌, [], List, length, bytes_eq};
ghost use Rattle.std.specs.Prelude.{if◌then◌else◌, IsTrue, None, IfOk, IfSome, MatchOption};
ghost use Rattle.std.specs.Prelude.{MatchResult};
ghost use Rattle.r4_base.specs.Key.{rank};
ghost use Rattle.r4_base.specs.Name.{key_of_name, name_fault};
ghost use Rattle.r4_content.specs.Walk.{target_in};
ghost use Rattle.r4_base.specs.Volume.{is_directory};
ghost use Rattle.r4_content.specs.Held.{pairs_of};
ghost use Rattle.r4_content.specs.Meaning.{is_path};
ghost use Rattle.r4_content.specs.Objects.{Object as SeenObject, is_full};
ghost use Rattle.r4_content.specs.Seen.{Rises};
ghost use Rattle.r4_content.specs.Ways.{object_at, step, to_object};
ghost use Rattle.r4_content.specs.declared.reply.Reply.{Reply as SeenReply};
ghost use Rattle.r4_content.specs.declared.reply.Reply.TheVariants.{Absent, Clash, Exists};
ghost use Rattle.r4_dir.specs.Coming.{AreNames, Comes, ComesEntry, ComesFree, ComesParent, IsSmall};
ghost use Rattle.r4_dir.specs.Coming.{Stops, StopsEntry, StopsFree, StopsParent, last_of};
ghost use Rattle.r4_dir.specs.Coming.{object_of, place_of};
ghost use Rattle.r4_dir.specs.Found.{place_found, root_reply};

use crate::finding::{SeenEntry, attr_at, entry_at};
use crate::object::{Object, Place};
use r4_base::{Key, Memory, Name, OBJECT_END, Oid, ROOT_OBJECT, Target};
use r4_cde::entry_key;
use r4_content::{Path, Reply, Seen};
use std::alloc::Global;

/// Whether an object is a directory.
pub fn is_dir(object: &Object) -> bool
    ensures { result ≡ is_directory object.now.attr }
{
    object.attr.is_directory()
}

/// Whether an object may get no more links: it has 65,535 or more.
pub fn is_full(object: &Object) -> bool
    ensures { result ≡ is_full (object_of object.now) }
{
    object.attr.nlink >= 65_535
}

/// The object that an entry names; none where no stat data of it were seen, or it can be no object.
pub fn object_at(seen: &Seen, target: Target) -> Option<Object>
    requires { Rises (pairs_of seen.now) }
    ensures small { IfSome result IsSmall }
    ensures comes { MatchOption result (Stops (object_at target) (pairs_of seen.now) Absent)
        (λ o. Comes (object_at target) (pairs_of seen.now) (object_of o)) }
{
    if target.locality >= OBJECT_END || target.oid.0 >= OBJECT_END {
        return None;
    }
    let key = Key::stat(target.locality, target.ordering, target.oid);
    let attr = attr_at(seen, key)?;
    Some(Object { target, attr })
}

/// The key of a name in a directory.
pub fn name_key(dir: Oid, name: &Name) -> Key
    requires dir { dir.0 < 2 ^ 60 }
    requires legal { name_fault name.now ≡ None }
    ensures { result ≡ key_of_name dir.0 name.now }
{
    match entry_key(dir, name.as_slice()) {
        Ok(key) => key,
        Err(_) => unreachable!(),
    }
}

// What the entry of this name names, where it was seen at its key.
fn target_at(seen: &Seen, key: Key, name: &Name) -> Option<Target>
    requires { Rises (pairs_of seen.now) }
    ensures { result ≡ target_in name.now (find nat_cmp (rank key) (pairs_of seen.now)) }
{
    let entry = entry_at(seen, key)?;
    (entry.name.as_slice() == name.as_slice()).then_some(entry.target)
}

/// One step down, to the object of a name; or the reply where there is none.
pub fn step_to(seen: &Seen, here: &Object, name: &Name) -> Result<Object, Reply>
    requires rises { Rises (pairs_of seen.now) }
    requires small { here.now.target.oid.0 < 2 ^ 60 }
    requires legal { name_fault name.now ≡ None }
    ensures small { IfOk result IsSmall }
    ensures comes { (above : List SeenObject) → MatchResult result
        (λ o. Comes (λ next. step name.now next
        (record { here = object_of here.now; above = above })) (pairs_of seen.now)
        (record { here = object_of o; above = above ++ object_of here.now ∷ [] }))
        (λ r. Stops (λ next. step name.now next
        (record { here = object_of here.now; above = above })) (pairs_of seen.now) r) }
{
    if !is_dir(here) {
        return Err(Reply::Notdir);
    }
    let key = name_key(here.target.oid, name);
    match target_at(seen, key, name) {
        Some(target) => match object_at(seen, target) {
            Some(object) => Ok(object),
            None => Err(Reply::Absent),
        },
        None => Err(Reply::Absent),
    }
}

// Whether these bytes are a name.
fn is_name(name: &Name) -> bool
    ensures test { result ≡ is_none (name_fault name.now) }
    ensures legal { IsTrue result → name_fault name.now ≡ None }
{
    match entry_key(Oid(42), name.as_slice()) {
        Ok(_) => true,
        Err(_) => false,
    }
}

/// Whether each component of a path is a name.
pub fn is_legal(path: &[Name]) -> bool
    ensures test { result ≡ is_path path.now }
    ensures all { IsTrue result → AreNames path.now }
{
    path.iter().all(|name| is_name(name))
}

/// The way along a path, from the root; or the reply where there is none.
#[tactic(auto, unfolding(r4_content::specs::Ways::to_object))]
pub fn walk_to(alloc: Global, seen: &Seen, path: &[Name]) -> Result<Result<Place, Reply>, Memory>
    requires rises { Rises (pairs_of seen.now) }
    requires legal { AreNames path.now }
    ensures small { IfOk result (λ r. IfOk r (λ p. IsSmall p.here)) }
    ensures comes { IfOk result (λ r. MatchResult r
        (λ p. Comes (to_object path.now) (pairs_of seen.now) (place_of p))
        (λ e. Stops (to_object path.now) (pairs_of seen.now) e)) }
{
    let Some(attr) = attr_at(
        seen,
        Key::stat(ROOT_OBJECT.locality, ROOT_OBJECT.ordering, ROOT_OBJECT.oid),
    ) else {
        return Ok(Err(Reply::Notdir));
    };
    let mut here = Object {
        target: ROOT_OBJECT,
        attr,
    };
    let mut above = Vec::new(alloc);
    for name in path {
        match step_to(seen, &here, name) {
            Ok(next) => {
                above.push(here)?;
                here = next;
            }
            Err(reply) => return Ok(Err(reply)),
        }
    }
    Ok(Ok(Place { here, above }))
}

/// A directory in which the last name of a path is free, and the name's key there.
#[derive(Clone, Copy, Debug, PartialEq, Eq)]
pub struct Free {
    pub dir: Object,
    pub key: Key,
}

/// The directory in which the last name of a path is free; or the reply where there is none, or the name is not free.
#[tactic(auto, unfolding(r4_content::specs::Ways::to_free, r4_content::specs::Ways::to_parent))]
pub fn free_in(alloc: Global, seen: &Seen, path: &[Name]) -> Result<Result<Free, Reply>, Memory>
    requires rises { Rises (pairs_of seen.now) }
    requires legal { AreNames path.now }
    ensures small { IfOk result (λ r. IfOk r (λ f. IsSmall f.dir × (0 < length path.now))) }
    ensures key { IfOk result (λ r. IfOk r (λ f. f.key
        ≡ key_of_name f.dir.target.oid.0 (last_of path.now))) }
    ensures comes { IfOk result (λ r. MatchResult r
        (λ f. ComesFree path.now (pairs_of seen.now) (object_of f.dir))
        (λ e. StopsFree path.now (pairs_of seen.now) e)) }
{
    if path.is_empty() {
        return Ok(Err(Reply::Exists));
    }
    let last = path.len() - 1;
    let dir = match walk_to(alloc, seen, &path[..last])? {
        Ok(place) => place.here,
        Err(reply) => return Ok(Err(reply)),
    };
    if !is_dir(&dir) {
        return Ok(Err(Reply::Notdir));
    }
    let key = name_key(dir.target.oid, &path[last]);
    match entry_at(seen, key) {
        Some(entry) => Ok(Err(taken(&entry, &path[last])?)),
        None => Ok(Ok(Free { dir, key })),
    }
}

// The reply where a name's key is taken.
fn taken(entry: &SeenEntry<'_>, name: &Name) -> Result<Reply, Memory>
    ensures { IfOk result (λ r. r ≡ (if bytes_eq entry.now.name.now name.now then Exists
        else Clash entry.now.name.now)) }
{
    if entry.name.as_slice() == name.as_slice() {
        return Ok(Reply::Exists);
    }
    let other = entry.name.share()?;
    Ok(Reply::Clash { other })
}

// The place above the last name of a path; or the reply where there is none.
#[tactic(auto, unfolding(r4_content::specs::Ways::to_parent))]
pub(crate) fn parent_of(
    alloc: Global,
    seen: &Seen,
    path: &[Name],
) -> Result<Result<Place, Reply>, Memory>
    requires rises { Rises (pairs_of seen.now) }
    requires legal { AreNames path.now }
    requires some { 0 < length path.now }
    ensures small { IfOk result (λ r. IfOk r (λ p. IsSmall p.here)) }
    ensures comes { (of_root : SeenReply) → IfOk result (λ r. MatchResult r
        (λ p. ComesParent of_root path.now (pairs_of seen.now) (place_of p))
        (λ e. StopsParent of_root path.now (pairs_of seen.now) e)) }
{
    walk_to(alloc, seen, &path[..path.len() - 1])
}

/// An object with its entry, and those above the directory of the entry.
#[derive(Drop)]
pub struct Found {
    pub dir: Object,
    pub key: Key,
    pub object: Object,
    pub above: Vec<Object>,
}

// The object of a path of names with its entry; or the reply where there is none.
#[tactic(auto, unfolding(r4_content::specs::Ways::to_entry))]
fn entry_named(alloc: Global, seen: &Seen, path: &[Name]) -> Result<Result<Found, Reply>, Memory>
    requires rises { Rises (pairs_of seen.now) }
    requires legal { AreNames path.now }
    requires some { 0 < length path.now }
    ensures small { IfOk result (λ r. IfOk r (λ f. IsSmall f.dir × IsSmall f.object)) }
    ensures key { IfOk result (λ r. IfOk r (λ f. f.key
        ≡ key_of_name f.dir.target.oid.0 (last_of path.now))) }
    ensures comes { (of_root : SeenReply) → IfOk result (λ r. MatchResult r
        (λ f. ComesEntry of_root path.now (pairs_of seen.now) (object_of f.dir) (place_found f))
        (λ e. StopsEntry of_root path.now (pairs_of seen.now) e)) }
{
    let place = match parent_of(alloc, seen, path)? {
        Ok(place) => place,
        Err(reply) => return Ok(Err(reply)),
    };
    let dir = place.here;
    let name = &path[path.len() - 1];
    match step_to(seen, &dir, name) {
        Ok(object) => Ok(Ok(Found {
            dir,
            key: name_key(dir.target.oid, name),
            object,
            above: place.above,
        })),
        Err(reply) => Ok(Err(reply)),
    }
}

/// The reply to a command that needs an entry where its path is the root's.
#[derive(Clone, Copy, Debug, PartialEq, Eq)]
pub enum OfRoot {
    Isdir,
    Loop,
}

/// The object of a path with its entry; or the reply where there is none, and where the path is the root's.
#[tactic(auto, unfolding(r4_content::specs::Ways::to_entry, r4_content::specs::Ways::to_parent))]
pub fn entry_of(
    alloc: Global,
    seen: &Seen,
    path: &[Name],
    of_root: OfRoot,
) -> Result<Result<Found, Reply>, Memory>
    requires rises { Rises (pairs_of seen.now) }
    requires legal { AreNames path.now }
    ensures small { IfOk result (λ r. IfOk r (λ f. IsSmall f.dir × IsSmall f.object
        × (0 < length path.now))) }
    ensures key { IfOk result (λ r. IfOk r (λ f. f.key
        ≡ key_of_name f.dir.target.oid.0 (last_of path.now))) }
    ensures comes { IfOk result (λ r. MatchResult r
        (λ f. ComesEntry (root_reply of_root) path.now (pairs_of seen.now) (object_of f.dir)
        (place_found f)) (λ e. StopsEntry (root_reply of_root) path.now (pairs_of seen.now) e)) }
{
    if path.is_empty() {
        return Ok(Err(reply_of_root(of_root)));
    }
    entry_named(alloc, seen, path)
}

fn reply_of_root(of_root: OfRoot) -> Reply
    ensures { result ≡ root_reply of_root }
{
    match of_root {
        OfRoot::Isdir => Reply::Isdir,
        OfRoot::Loop => Reply::Loop,
    }
}
