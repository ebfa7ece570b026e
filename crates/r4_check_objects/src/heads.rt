//! The first things under ids.

ghost use Rattle.std.specs.Prelude.{◌≡◌, ◌++◌, ◌∷◌, [], List, IfOk, OnOk, if◌then◌else◌, is_some};
ghost use Rattle.std.specs.BTreeSet.{insert_key};
ghost use Rattle.std.specs.Option.{option_copied};
ghost use Rattle.std.specs.Ordering.{nat_cmp};
ghost use Rattle.r4_check_objects.specs.Held.{id_of};
ghost use Rattle.r4_check_objects.specs.Known.{AreFirsts, AreHeads, goes_first};
ghost use Rattle.r4_check_objects.specs.Objects.{owner_of};
ghost use Rattle.r4_check_objects.specs.declared.held.Held.{Held as Found};

use crate::held::Held;
use crate::table::{Span, Table};
use r4_base::{Memory, ROOT_OBJECT};
use std::alloc::Global;
use std::collections::BTreeSet;

/// Under each id the first stat data, or else the first thing.
pub(crate) type Heads = Table<Option<Held>>;

/// The first things under ids; and the ids under which something stands, and the root's.
#[derive(Drop)]
pub(crate) struct Firsts {
    pub(crate) heads: Heads,
    pub(crate) ids: BTreeSet<u64>,
}

/// The first things and the ids, with a span of them in the table's list.
pub(crate) fn firsts_of(alloc: Global, found: &[Held], span: Span) -> Result<Firsts, Memory>
    ensures { IfOk result (AreFirsts found.now) }
{
    let mut firsts = Firsts::new(alloc, span)?;
    for held in found {
        firsts.note(held)?;
    }
    Ok(firsts)
}

impl Firsts {
    // Nothing stands under any id.
    fn new(alloc: Global, span: Span) -> Result<Firsts, Memory>
        ensures { IfOk result (AreFirsts []) }
    {
        let heads = Table::new(alloc, None, span)?;
        let mut ids = BTreeSet::new(alloc);
        ids.insert(ROOT_OBJECT.oid.0)?;
        Ok(Firsts { heads, ids })
    }

    // Notes one thing more.
    fn note(&mut self, held: &Held) -> Result<(), Memory>
        ensures { (found : List Found) → AreFirsts found self.old
            → OnOk result (AreFirsts (found ++ held.now ∷ []) self.new) }
    {
        let id = held.id();
        note_id(&mut self.ids, self.heads.at(id), id)?;
        note_head(&mut self.heads, held, id)?;
        Ok(())
    }
}

// Notes an id, where nothing stood under it before.
fn note_id(ids: &mut BTreeSet<u64>, head: &Option<Held>, id: u64) -> Result<(), Memory>
    ensures { OnOk result (ids.new.keys
        ≡ (if is_some head.now then ids.old.keys else insert_key nat_cmp ids.old.keys id)) }
{
    if head.is_none() {
        ids.insert(id)?;
    }
    Ok(())
}

// Notes a thing, where it comes first under its id.
fn note_head(heads: &mut Heads, held: &Held, id: u64) -> Result<(), Memory>
    requires { id ≡ id_of held.now }
    ensures { (found : List Found) → AreHeads found heads.old
        → OnOk result (AreHeads (found ++ held.now ∷ []) heads.new) }
{
    if goes_first(heads.at(id), held) {
        heads.put(id, Some(*held))?;
    }
    Ok(())
}

// Whether a thing comes first under its id, where this one did so far.
fn goes_first(before: &Option<Held>, held: &Held) -> bool
    ensures { result ≡ goes_first before.now held.now }
{
    match before {
        Some(first) => !first.is_stat_data() && held.is_stat_data(),
        None => true,
    }
}

/// The first stat data of an id.
pub(crate) fn owner_of(heads: &Heads, id: u64) -> Option<&Held>
    ensures { (found : List Found) → AreHeads found heads.now
        → option_copied result ≡ owner_of found id }
{
    match heads.at(id) {
        Some(first) if first.is_stat_data() => Some(first),
        _ => None,
    }
}
