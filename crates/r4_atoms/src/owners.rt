//! A table from nodes to labels, in which an entry is moved without memory.

ghost use Rattle.std.specs.Prelude.{◌≡◌, ◌≢◌, ℕ, ◌+◌, ◌-◌, ◌^◌, ◌<◌, ◌≤◌, ◌∷◌, ◌++◌, ◌==◌, [], length, max, map, filter, not, if◌then◌else◌, IsOk, IsSome, IfOk, OnOk, OnErr, vec_len, vec_capacity};
ghost use Rattle.std.specs.HashMap.{hash_map_len, spare as spare_of};
ghost use Rattle.std.specs.Map.{keys_of};
ghost use Rattle.std.specs.List.{Contains};
ghost use Rattle.std.specs.List.Sorted.{IsStrictlyIncreasing};
ghost use Rattle.r4_atoms.specs.Owned.{is_of, label_of, pair_of, pairs_of};

use r4_base::Memory;
use std::alloc::{AllocError, Global};
use std::collections::HashMap;
use std::marker::Model;

/// A node and its label.
#[derive(Clone, Copy)]
pub struct Label {
    pub node: u64,
    pub label: u32,
}

/// The labels of nodes. There is room for `spare` more nodes. An entry that is moved to another node while the table has
/// no place for it stands in `moved`, up to the next `room`. Nodes that got a label are noted, so that they can be looked
/// at one after the other, `next` first.
#[derive(Drop)]
pub struct Owners {
    table: HashMap<u64, u32>,
    moved: Vec<Label>,
    noted: Vec<u64>,
    next: usize,
    spare: u64,
}

impl Model for Owners {
    ghost use Rattle.std.specs.Prelude.{◌++◌, vec_capacity};
    ghost use Rattle.r4_atoms.specs.Owned.{Owned, pairs_of, HasPlaces};
    ghost use Rattle.std.specs.HashMap.{hash_map_len, spare as spare_of};

    ghost Value = { Owned };

    ghost view = { λ o. record { entries = o.table.entries ++ pairs_of o.moved.items; spare = o.spare } };

    ghost invariant = { λ o. HasPlaces (hash_map_len o.table) (spare_of o.table) o.moved.items o.spare (vec_capacity o.moved) };
}

impl Owners {
    /// No node has a label, and there is room for none. It takes no memory.
    pub fn new(alloc: Global) -> Owners
        ensures { result ≡ record { entries = []; spare = 0 } }
    {
        Owners {
            table: HashMap::new(alloc),
            moved: Vec::new(alloc),
            noted: Vec::new(alloc),
            next: 0,
            spare: 0,
        }
    }

    /// For how many more nodes there is room.
    pub fn spare(&self) -> u64
        ensures { result ≡ self.now.spare }
    {
        self.spare
    }

    /// The label of a node.
    pub fn get(&self, node: u64) -> Option<u32>
        ensures { result ≡ label_of node self.now.entries }
    {
        match self.table.get(&node) {
            Some(label) => Some(*label),
            None => label_in(self.moved.as_slice(), node),
        }
    }

    /// The nodes that have a label, rising.
    pub fn nodes(&self, alloc: Global) -> Result<Vec<u64>, Memory>
        ensures rising { IfOk result (λ v. IsStrictlyIncreasing v.items) }
        ensures all { IfOk result (λ v. (n : ℕ) → IsSome (label_of n self.now.entries) → Contains v.items n) }
    {
        let mut nodes = self.all(alloc)?;
        nodes.sort_unstable();
        nodes.dedup();
        Ok(nodes)
    }

    // The nodes that have a label.
    fn all(&self, alloc: Global) -> Result<Vec<u64>, Memory>
        ensures { IfOk result (λ v. v.items ≡ keys_of self.now.entries) }
    {
        let mut nodes: Vec<u64> = self.table.keys().copied().collect(alloc)?;
        add_nodes(&mut nodes, self.moved.as_slice())?;
        Ok(nodes)
    }

    /// Gives a node a label, in place of one that it had. It takes no memory.
    pub fn set(&mut self, node: u64, label: u32)
        requires { 0 < self.old.spare }
        ensures entries { (n : ℕ) → label_of n self.new.entries ≡ (if node == n then Some label else label_of n self.old.entries) }
        ensures spare { self.new.spare ≡ self.old.spare - 1 }
    {
        forget(&mut self.moved, node);
        note_new(&mut self.noted, &self.table, node);
        let _ = self.table.insert(node, label);
        self.spare -= 1;
    }

    /// Takes away the label of a node.
    pub fn remove(&mut self, node: u64)
        ensures entries { (n : ℕ) → label_of n self.new.entries ≡ (if node == n then None else label_of n self.old.entries) }
        ensures spare { self.new.spare ≡ self.old.spare }
    {
        forget(&mut self.moved, node);
        let _ = self.table.remove(&node);
    }

    /// Gives the label of `from` to `to`, in place of one that it had; `from` has none then. It takes no memory.
    pub fn rename(&mut self, from: u64, to: u64)
        requires label { IsSome (label_of from self.old.entries) }
        requires differ { from ≢ to }
        ensures entries { (n : ℕ) → label_of n self.new.entries ≡ (if to == n then label_of from self.old.entries else (if from == n then None else label_of n self.old.entries)) }
        ensures spare { self.new.spare ≡ self.old.spare }
    {
        let label = self.get(from).unwrap();
        note(&mut self.noted, to);
        forget(&mut self.moved, from);
        let _ = self.table.remove(&from);
        forget(&mut self.moved, to);
        let _ = self.table.remove(&to);
        if (self.spare as usize) < self.table.capacity() - self.table.len() {
            let _ = self.table.insert(to, label);
        } else {
            add(&mut self.moved, Label { node: to, label });
        }
    }

    /// A node that is noted, one after the other and round again. None is noted where it answers none.
    pub fn next_noted(&mut self) -> Option<u64>
        ensures { self.new ≡ self.old }
    {
        if self.noted.len() <= self.next {
            self.next = 0;
        }
        if self.noted.is_empty() {
            return None;
        }
        let node = self.noted[self.next];
        self.next += 1;
        Some(node)
    }

    /// The node that `next_noted` answered last is noted no more.
    pub fn drop_noted(&mut self)
        ensures { self.new ≡ self.old }
    {
        if self.next == 0 {
            return;
        }
        if self.next <= self.noted.len() {
            self.next -= 1;
            let _ = self.noted.swap_remove(self.next);
        }
    }

    /// Makes room for at least so many more nodes. The only error is want of memory.
    pub fn room(&mut self, nodes: u64) -> Result<(), Memory>
        ensures entries { (n : ℕ) → label_of n self.new.entries ≡ label_of n self.old.entries }
        ensures ok { OnOk result (self.new.spare ≡ max self.old.spare nodes) }
        ensures succeeds { nodes ≤ self.old.spare → IsOk result }
        ensures err { OnErr result (self.new ≡ self.old) }
    {
        self.grow(nodes)?;
        self.empty_moved();
        Ok(())
    }

    // Makes room, but for what has moved. As many nodes can be noted as can get a label, or be moved.
    fn grow(&mut self, nodes: u64) -> Result<(), Memory>
        ensures entries { (n : ℕ) → label_of n self.new.entries ≡ label_of n self.old.entries }
        ensures ok { OnOk result (self.new.spare ≡ max self.old.spare nodes) }
        ensures succeeds { nodes ≤ self.old.spare → IsOk result }
        ensures err { OnErr result (self.new ≡ self.old) }
    {
        if self.spare < nodes {
            let all = nodes
                .checked_add(self.table.len() as u64)
                .ok_or(AllocError)?;
            self.moved.reserve(all as usize)?;
            self.noted.reserve(all as usize)?;
            self.table.reserve(nodes as usize)?;
            self.spare = nodes;
        }
        Ok(())
    }

    // Gives what has moved places in the table, if there is memory for that.
    fn empty_moved(&mut self)
        ensures entries { (n : ℕ) → label_of n self.new.entries ≡ label_of n self.old.entries }
        ensures spare { self.new.spare ≡ self.old.spare }
    {
        if self.moved.is_empty() {
            return;
        }
        let Some(all) = self.spare.checked_add(self.moved.len() as u64) else {
            return;
        };
        if self.table.reserve(all as usize).is_ok() {
            put_all(&mut self.table, self.moved.as_slice());
            self.moved.clear();
        }
    }
}

// Puts into the table what stands in a row and has no label in the table, the first one of a node. There are places for
// all of it.
fn put_all(table: &mut HashMap<u64, u32>, row: &[Label])
    requires { length row.now ≤ spare_of table.old }
    ensures entries { (n : ℕ) → label_of n table.new.entries ≡ label_of n (table.old.entries ++ pairs_of row.now) }
    ensures len { hash_map_len table.new ≤ hash_map_len table.old + length row.now }
    ensures places { spare_of table.old ≤ spare_of table.new + length row.now }
{
    for one in row {
        put(table, one);
    }
}

// Puts a label into the table, unless its node has one there.
fn put(table: &mut HashMap<u64, u32>, one: &Label)
    requires { 0 < spare_of table.old }
    ensures entries { (n : ℕ) → label_of n table.new.entries ≡ label_of n (table.old.entries ++ pair_of one.now ∷ []) }
    ensures len { hash_map_len table.new ≤ hash_map_len table.old + 1 }
    ensures places { spare_of table.old ≤ spare_of table.new + 1 }
{
    if !table.contains_key(&one.node) {
        let _ = table.insert(one.node, one.label);
    }
}

// Notes a node that has no label in the table, where there is room. One with a label is noted since it got one.
fn note_new(noted: &mut Vec<u64>, table: &HashMap<u64, u32>, node: u64)
    ensures { IsSome (label_of node table.now.entries) → noted.new.items ≡ noted.old.items }
{
    if !table.contains_key(&node) {
        note(noted, node);
    }
}

// Notes a node, where there is room.
fn note(noted: &mut Vec<u64>, node: u64)
    ensures has { vec_len noted.old < vec_capacity noted.old → noted.new.items ≡ noted.old.items ++ node ∷ [] }
    ensures full { vec_capacity noted.old ≤ vec_len noted.old → noted.new.items ≡ noted.old.items }
{
    if noted.len() < noted.capacity() {
        let _ = noted.push(node);
    }
}

// The label of a node in a row.
fn label_in(row: &[Label], node: u64) -> Option<u32>
    ensures { result ≡ label_of node (pairs_of row.now) }
{
    for one in row {
        if one.node == node {
            return Some(one.label);
        }
    }
    None
}

// Takes a node out of a row.
fn forget(row: &mut Vec<Label>, node: u64)
    ensures items { row.new.items ≡ filter (λ l. not (is_of node l)) row.old.items }
    ensures capacity { vec_capacity row.old ≤ vec_capacity row.new }
{
    row.retain(|one| one.node != node);
}

// Adds a label for which there is room.
fn add(row: &mut Vec<Label>, one: Label)
    requires { vec_len row.old < vec_capacity row.old }
    ensures items { row.new.items ≡ row.old.items ++ one ∷ [] }
    ensures capacity { vec_capacity row.old ≤ vec_capacity row.new }
{
    let _ = row.push(one);
}

// Adds the nodes of a row.
fn add_nodes(nodes: &mut Vec<u64>, row: &[Label]) -> Result<(), Memory>
    ensures { OnOk result (nodes.new.items ≡ nodes.old.items ++ keys_of (pairs_of row.now)) }
{
    for one in row {
        nodes.push(one.node)?;
    }
    Ok(())
}
