//! The ids that the root reaches.

ghost use Rattle.std.specs.Prelude.{◌≡◌, ℕ, IfOk, OnOk};
ghost use Rattle.r4_check_objects.specs.Objects.{is_reached};
ghost use Rattle.r4_check_objects.specs.Reach.{Adds, AddsName, AreNamed, Grows, IsReach};
ghost use Rattle.r4_check_objects.specs.Table.{value_at};

use crate::held::Held;
use crate::table::{Span, Table};
use r4_base::{Memory, ROOT_OBJECT};
use std::alloc::Global;
use std::collections::BTreeMap;

/// Under each id the ids that its entries name.
pub(crate) type Named = BTreeMap<u64, Vec<u64>>;

/// Whether an id is reached so far, and those that are in the order in which they were.
#[derive(Drop)]
pub(crate) struct Reach {
    pub(crate) ids: Table<bool>,
    pub(crate) order: Vec<u64>,
}

/// The ids that the root reaches: its own, and each that an entry under a reached one names. The table has room for so
/// many ids in its list.
pub(crate) fn reached_ids(alloc: Global, found: &[Held], span: Span) -> Result<Table<bool>, Memory>
    ensures { IfOk result (λ ids. (q : ℕ) → value_at ids q ≡ is_reached found.now q) }
{
    let named = named_ids(alloc, found)?;
    let mut reach = Reach {
        ids: Table::new(alloc, false, span)?,
        order: Vec::new(alloc),
    };
    reach.add(ROOT_OBJECT.oid.0)?;
    let mut i = 0;
    while i < reach.order.len() {
        if let Some(ids) = named.get(&reach.order[i]) {
            reach.add_all(ids)?;
        }
        i += 1;
    }
    Ok(reach.ids)
}

// The ids that entries name.
fn named_ids(alloc: Global, found: &[Held]) -> Result<Named, Memory>
    ensures { IfOk result (AreNamed found.now) }
{
    let mut named = BTreeMap::new(alloc);
    for held in found {
        if let Some(target) = held.target() {
            add_name(alloc, &mut named, held.id(), target.oid.0)?;
        }
    }
    Ok(named)
}

// Notes that an entry under an id names another one.
fn add_name(alloc: Global, named: &mut Named, from: u64, to: u64) -> Result<(), Memory>
    ensures { OnOk result (AddsName from to named.old named.new) }
{
    if let Some(ids) = named.get_mut(&from) {
        ids.push(to)?;
        return Ok(());
    }
    let mut ids = Vec::new(alloc);
    ids.push(to)?;
    named.insert(from, ids)?;
    Ok(())
}

impl Reach {
    // Adds an id, where it is not there.
    fn add(&mut self, id: u64) -> Result<(), Memory>
        requires { IsReach self.old }
        ensures { OnOk result (Adds id self.old self.new) }
    {
        if !self.ids.get(id) {
            self.ids.put(id, true)?;
            self.order.push(id)?;
        }
        Ok(())
    }

    // Adds ids.
    fn add_all(&mut self, ids: &[u64]) -> Result<(), Memory>
        requires { IsReach self.old }
        ensures { OnOk result (Grows ids.now self.old self.new) }
    {
        for id in ids {
            self.add(*id)?;
        }
        Ok(())
    }
}
