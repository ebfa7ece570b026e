//! The transactions of each script, of which each tells the one before it.

ghost use Rattle.std.specs.Prelude.{◌≡◌, ◌+◌, ◌-◌, ◌<◌, ◌≤◌, ◌∷◌, ◌++◌, [], length, max, slice_index, OnOk, OnErr, vec_len, vec_capacity};
ghost use Rattle.r4_atoms.specs.Scripts.{IsLatest, or_none};
ghost use Rattle.r4_atoms.specs.Owned.{label_of};

use r4_base::Memory;
use std::alloc::Global;
use std::collections::HashMap;
use std::marker::Model;

/// A transaction: its script, and the transaction before it of the same script, or 0.
#[derive(Clone, Copy)]
pub struct Begun {
    pub script: u32,
    pub before: u32,
}

/// The transactions that were begun, numbered from 1: contracts see the script of each. A script's transactions are found
/// one from the other, from the last one on. There is room for `spare` more.
#[derive(Drop)]
pub struct Scripts {
    rows: Vec<Begun>,
    last: HashMap<u32, u32>,
    spare: u64,
}

impl Model for Scripts {
    ghost use Rattle.std.specs.Prelude.{length, vec_capacity};
    ghost use Rattle.std.specs.HashMap.{spare as spare_of};
    ghost use Rattle.r4_atoms.specs.Scripts.{Scripted, scripts_of, AreLinked, HaveSpare};

    ghost Value = { Scripted };

    ghost view = { λ s. record { scripts = scripts_of s.rows.items; spare = s.spare } };

    ghost invariant = { λ s. AreLinked s.rows.items s.last.entries × HaveSpare (length s.rows.items) (spare_of s.last) (vec_capacity s.rows) s.spare };
}

impl Scripts {
    /// No transaction, and room for none. It takes no memory.
    pub fn new(alloc: Global) -> Scripts
        ensures { result ≡ record { scripts = []; spare = 0 } }
    {
        Scripts {
            rows: Vec::new(alloc),
            last: HashMap::new(alloc),
            spare: 0,
        }
    }

    /// The last transaction of a script; 0 where it has none.
    pub fn last(&self, script: u32) -> u32
        ensures { IsLatest self.now.scripts script (length self.now.scripts) result }
    {
        match self.last.get(&script) {
            Some(txn) => *txn,
            None => 0,
        }
    }

    /// The transaction before this one of the same script; 0 where it is the script's first one.
    pub fn before(&self, txn: u32) -> u32
        requires some { 0 < txn }
        requires within { txn ≤ length self.now.scripts }
        ensures { IsLatest self.now.scripts (slice_index self.now.scripts (txn - 1)) (txn - 1) result }
    {
        self.rows[(txn - 1) as usize].before
    }

    /// Makes room for at least so many more transactions. The only error is want of memory.
    pub fn room(&mut self, txns: u64) -> Result<(), Memory>
        ensures ok { OnOk result (self.new ≡ record self.old { spare = max self.old.spare txns }) }
        ensures err { OnErr result (self.new ≡ self.old) }
    {
        if self.spare < txns {
            self.rows.reserve(txns as usize)?;
            self.last.reserve(txns as usize)?;
            self.spare = txns;
        }
        Ok(())
    }

    /// Adds a transaction of a script, for which there has to be room.
    pub fn push(&mut self, script: u32)
        requires room { 0 < self.old.spare }
        requires few { length self.old.scripts < 4294967295 }
        ensures scripts { self.new.scripts ≡ self.old.scripts ++ script ∷ [] }
        ensures spare { self.new.spare ≡ self.old.spare - 1 }
    {
        let before = self.last(script);
        let number = self.rows.len() as u32 + 1;
        add(&mut self.rows, Begun { script, before });
        let _ = self.last.insert(script, number);
        self.spare -= 1;
    }
}

// Adds a transaction for which there is room.
fn add(rows: &mut Vec<Begun>, one: Begun)
    requires { vec_len rows.old < vec_capacity rows.old }
    ensures items { rows.new.items ≡ rows.old.items ++ one ∷ [] }
    ensures capacity { vec_capacity rows.old ≤ vec_capacity rows.new }
{
    let _ = rows.push(one);
}
