//! What is looked up for each thing that a tree holds.

ghost use Rattle.std.specs.Prelude.{◌≡◌, List, IfOk, false, filter, find, option_and_then};
ghost use Rattle.std.specs.Option.{option_map_or};
ghost use Rattle.r4_check_objects.specs.Known.{AreHeads, IsKnown, is_other};
ghost use Rattle.r4_check_objects.specs.Objects.{facts_at, facts_in, is_directory_id, is_object_at, is_owner, owner_facts};
ghost use Rattle.r4_check_objects.specs.declared.held.Held.{Held as Found};

use crate::heads::{Heads, owner_of};
use crate::held::{Facts, Held, is_same};
use crate::reach::reached_ids;
use crate::table::{Span, Table};
use r4_base::{Memory, Target};
use std::alloc::Global;

/// The first thing under each id; the objects that do not own their ids, of which a volume has none; and the ids that the
/// root reaches.
#[derive(Drop)]
pub(crate) struct Known {
    pub(crate) heads: Heads,
    pub(crate) others: Vec<Held>,
    pub(crate) reached: Table<bool>,
}

impl Known {
    /// What is known of these things, whose heads these are; with a span of ids in the table's list.
    pub(crate) fn of(
        alloc: Global,
        heads: Heads,
        found: &[Held],
        span: Span,
    ) -> Result<Known, Memory>
        requires { AreHeads found.now heads }
        ensures { IfOk result (IsKnown found.now) }
    {
        let others = others_in(alloc, &heads, found)?;
        let reached = reached_ids(alloc, found, span)?;
        Ok(Known {
            heads,
            others,
            reached,
        })
    }

    /// Whether an object owns its id.
    pub(crate) fn is_owner(&self, object: &Target) -> bool
        ensures { (found : List Found) → IsKnown found self.now → result ≡ is_owner found object.now }
    {
        owns(&self.heads, object)
    }

    /// The facts of an object. It looks through all other objects for one that does not own its id.
    pub(crate) fn facts_at(&self, object: &Target) -> Option<Facts>
        ensures { (found : List Found) → IsKnown found self.now → result ≡ facts_at found object.now }
    {
        match owner_of(&self.heads, object.oid.0) {
            Some(owner) if is_object_at(owner, object) => owner.facts(),
            _ => facts_among(&self.others, object),
        }
    }

    /// The facts of the owner of an id.
    pub(crate) fn owner_facts(&self, id: u64) -> Option<Facts>
        ensures { (found : List Found) → IsKnown found self.now → result ≡ owner_facts found id }
    {
        match owner_of(&self.heads, id) {
            Some(owner) => owner.facts(),
            None => None,
        }
    }

    /// Whether the owner of an id is a directory.
    pub(crate) fn is_directory_id(&self, id: u64) -> bool
        ensures { (found : List Found) → IsKnown found self.now → result ≡ is_directory_id found id }
    {
        is_directory(self.owner_facts(id))
    }
}

/// Whether these are the facts of a directory.
pub(crate) fn is_directory(facts: Option<Facts>) -> bool
    ensures { result ≡ option_map_or (λ f. f.directory) facts false }
{
    match facts {
        Some(facts) => facts.directory,
        None => false,
    }
}

// Whether it is the stat data of an object, at its key.
fn is_object_at(held: &Held, object: &Target) -> bool
    ensures { result ≡ is_object_at object.now held.now }
{
    held.facts().is_some() && is_same(&held.object(), object)
}

// Whether an object owns its id.
fn owns(heads: &Heads, object: &Target) -> bool
    ensures { (found : List Found) → AreHeads found heads.now → result ≡ is_owner found object.now }
{
    match owner_of(heads, object.oid.0) {
        Some(owner) => is_object_at(owner, object),
        None => false,
    }
}

// The objects that do not own their ids.
fn others_in(alloc: Global, heads: &Heads, found: &[Held]) -> Result<Vec<Held>, Memory>
    requires { AreHeads found.now heads.now }
    ensures { IfOk result (λ v. v.items ≡ filter (is_other found.now) found.now) }
{
    let mut others = Vec::new(alloc);
    for held in found {
        if is_other(heads, held) {
            others.push(*held)?;
        }
    }
    Ok(others)
}

// Whether it is stat data of an object that does not own its id.
fn is_other(heads: &Heads, held: &Held) -> bool
    ensures { (found : List Found) → AreHeads found heads.now → result ≡ is_other found held.now }
{
    held.facts().is_some() && !owns(heads, &held.object())
}

// The facts of the first one that is this object.
fn facts_among(others: &[Held], object: &Target) -> Option<Facts>
    ensures { result ≡ option_and_then facts_in (find (is_object_at object.now) others.now) }
{
    match first_at(others, object) {
        Some(held) => held.facts(),
        None => None,
    }
}

// The first one that is this object.
fn first_at(others: &[Held], object: &Target) -> Option<Held>
    ensures { result ≡ find (is_object_at object.now) others.now }
{
    for held in others {
        if is_object_at(held, object) {
            return Some(*held);
        }
    }
    None
}
