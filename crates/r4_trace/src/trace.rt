//! The list of entries.

ghost use Rattle.std.specs.Prelude.{◌≡◌, ◌-◌, ◌<◌, ◌≤◌, ◌∷◌, ◌++◌, [], length, max, reverse, slice_get, OnOk, OnErr, vec_len, vec_capacity};

use crate::entry::Entry;
use r4_base::Memory;
use std::alloc::Global;
use std::marker::Model;

/// The entries of a run in their order, and for how many more there is room. Entries are added at
/// the end; none is changed or removed. Contracts see their list the other way round, the newest
/// entry first; so their lines are printed in the order of the list's reverse.
#[derive(Drop)]
pub struct Trace {
    entries: Vec<Entry>,
    spare: u64,
}

impl Model for Trace {
    ghost use Rattle.std.specs.Prelude.{reverse, vec_capacity};
    ghost use Rattle.r4_trace.specs.Kept.{Told, HasRoom};

    ghost Value = { Told };

    ghost view = { λ t. record { entries = reverse t.entries.items; spare = t.spare } };

    ghost invariant = { λ t. HasRoom t.entries.items t.spare (vec_capacity t.entries) };
}

impl Trace {
    /// A trace without entries, with room for none. It takes no memory yet.
    pub fn new(alloc: Global) -> Trace
        ensures { result ≡ record { entries = []; spare = 0 } }
    {
        Trace {
            entries: Vec::new(alloc),
            spare: 0,
        }
    }

    /// The number of entries.
    pub fn len(&self) -> u64
        ensures { result ≡ length self.now.entries }
    {
        self.entries.len() as u64
    }

    /// The entry at `i`, counted from 0, the oldest one.
    pub fn entry(&self, i: u64) -> &Entry
        requires { i < length self.now.entries }
        ensures { slice_get (reverse self.now.entries) i ≡ Some result.now }
    {
        &self.entries[i as usize]
    }

    /// For how many entries there is room.
    pub fn spare(&self) -> u64
        ensures { result ≡ self.now.spare }
    {
        self.spare
    }

    /// Makes room for at least so many entries more. It takes memory where there is less; where
    /// there is not enough, all is as before.
    pub fn room(&mut self, entries: u64) -> Result<(), Memory>
        ensures ok { OnOk result
            (self.new ≡ record self.old { spare = max self.old.spare entries }) }
        ensures err { OnErr result (self.new ≡ self.old) }
    {
        if self.spare < entries {
            self.entries.reserve(entries as usize)?;
            self.spare = entries;
        }
        Ok(())
    }

    /// Adds an entry at the end, for which there has to be room. It takes no memory.
    pub fn push(&mut self, entry: Entry)
        requires { 0 < self.old.spare }
        ensures { self.new
            ≡ record { entries = entry ∷ self.old.entries; spare = self.old.spare - 1 } }
    {
        add(&mut self.entries, entry);
        self.spare -= 1;
    }
}

// Adds an entry for which there is room.
fn add(entries: &mut Vec<Entry>, entry: Entry)
    requires { vec_len entries.old < vec_capacity entries.old }
    ensures items { entries.new.items ≡ entries.old.items ++ entry ∷ [] }
    ensures capacity { vec_capacity entries.old ≤ vec_capacity entries.new }
{
    let _ = entries.push(entry);
}
