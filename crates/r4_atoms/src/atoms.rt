//! The transactions of a run, their atoms, and the nodes that an atom owns.

ghost use Rattle.std.specs.Prelude.{◌≡◌, ◌≢◌, ℕ, ◌+◌, ◌-◌, ◌^◌, ◌<◌, ◌≤◌, ◌∷◌, ◌++◌, ◌==◌, [], length, max, min, true, false, map, slice_set, slice_index, ◌⊎◌, ◌↔◌, filter, if◌then◌else◌, IsOk, IfOk, IfErr, OnOk, OnErr, IsSome, IfSome, MatchBool, MatchOption, option_map, vec_len, vec_capacity};
ghost use Rattle.std.specs.Option.{option_or};
ghost use Rattle.std.specs.List.{Contains};
ghost use Rattle.std.specs.List.Sorted.{IsStrictlyIncreasing};
ghost use Rattle.r4_atoms.specs.Names.{AreNames, renamed};
ghost use Rattle.r4_atoms.specs.Atoms.{AreKept, HaveRoom, AllCommitted, FitTogether, IsAtom, IsClosedAtom, IsSmallestAtom, IsSmallestClosed, IsUncommittedOf, NonePasses, is_pending_as, IsBegun, IsFreeFor, IsOpenAtom, IsOpenIn, IsOtherOwner, joined, joined_rows, renamed_txn, sum_of, IsRefused, IsSmallestOpen, account_of, atom_of, ended, is_cleaned, is_committed, is_sealed, new_atom, new_row, new_txn, numbers, open_count, owner_of, owns, row_at, state_at, state_of, txn_of, with_state, without_owner};

use crate::forest::Forest;
use crate::owners::Owners;
use crate::scripts::Scripts;
use crate::things::{Account, AtomState, CaptureFault, Row, StillOpen, Uncommitted};
use r4_base::{AtomNo, Memory, NodeId, ScriptNo, TxnNo};
use std::alloc::Global;
use std::marker::Model;

/// The transactions that were begun, numbered from 1; the atoms that they make together, each named by its smallest
/// transaction; and the nodes that each atom owns. An atom is open until it is sealed.
#[derive(Drop)]
pub struct Atoms {
    forest: Forest,
    rows: Vec<Row>,
    states: Vec<AtomState>,
    owners: Owners,
    scripts: Scripts,
    low: u32,
}

impl Model for Atoms {
    ghost use Rattle.std.specs.Prelude.{length, vec_capacity};
    ghost use Rattle.r4_atoms.specs.Atoms.{AtomsSeen, txns_of, AreKept, AreScripts, HaveRoom};

    ghost Value = { AtomsSeen };

    ghost view = { λ a. record { txns = txns_of a.rows.items a.forest.names; atoms = a.states.items; captured = a.owners.entries; spare = a.owners.spare; txn_spare = a.forest.spare } };

    ghost invariant = { λ a. AreKept a.forest.names a.rows.items a.states.items a.owners.entries a.low × HaveRoom (length a.rows.items) (length a.states.items) a.forest.spare (vec_capacity a.rows) (vec_capacity a.states) × AreScripts a.rows.items a.scripts.scripts a.forest.spare a.scripts.spare };
}

impl Atoms {
    /// No transaction is begun and no node is owned. It takes no memory.
    pub fn new(alloc: Global) -> Atoms
        ensures { result ≡ record { txns = []; atoms = []; captured = []; spare = 0; txn_spare = 0 } }
    {
        Atoms {
            forest: Forest::new(alloc),
            rows: Vec::new(alloc),
            states: Vec::new(alloc),
            owners: Owners::new(alloc),
            scripts: Scripts::new(alloc),
            low: 0,
        }
    }

    /// What holds of all transactions, atoms and owners. It does nothing.
    pub fn lawful(&self)
        ensures atoms { (t : ℕ) → IsBegun self.now t → (atom_of self.now t ≤ t) × IsAtom self.now (atom_of self.now t) }
        ensures owners { (n a : ℕ) → owner_of self.now n ≡ Some a → IsAtom self.now a × (is_cleaned self.now a ≡ false) }
        ensures sealed { (a : ℕ) → IsAtom self.now a → is_sealed self.now a ≡ true → open_count self.now a ≡ 0 }
    {
        let _ = &self.low;
    }

    /// The number of transactions that were begun.
    pub fn begun(&self) -> u32
        ensures { result ≡ length self.now.txns }
    {
        self.rows.len() as u32
    }

    /// The atom of a transaction.
    pub fn atom(&self, txn: TxnNo) -> AtomNo
        requires { IsBegun self.now txn.0 }
        ensures { result.0 ≡ atom_of self.now txn.0 }
    {
        AtomNo(self.forest.name(txn.0 - 1) + 1)
    }

    /// Whether a number names an atom: the smallest of its transactions does.
    pub fn is_atom(&self, atom: AtomNo) -> bool
        ensures { MatchBool result (IsAtom self.now atom.0) (IsAtom self.now atom.0 → ⊥) }
    {
        if atom.0 == 0 {
            return false;
        }
        if self.begun() < atom.0 {
            return false;
        }
        self.atom(TxnNo(atom.0)).0 == atom.0
    }

    /// The script of a transaction.
    pub fn script(&self, txn: TxnNo) -> ScriptNo
        requires { IsBegun self.now txn.0 }
        ensures { result.0 ≡ (txn_of self.now txn.0).script }
    {
        self.rows[(txn.0 - 1) as usize].script
    }

    /// Whether a transaction is open.
    pub fn is_open(&self, txn: TxnNo) -> bool
        requires { IsBegun self.now txn.0 }
        ensures { result ≡ (txn_of self.now txn.0).is_open }
    {
        self.rows[(txn.0 - 1) as usize].is_open
    }

    /// The account of an atom; nothing is in it where nothing was charged.
    pub fn account(&self, atom: AtomNo) -> Account
        requires { IsAtom self.now atom.0 }
        ensures { result ≡ account_of self.now atom.0 }
    {
        self.states[(atom.0 - 1) as usize].account
    }

    /// Whether an atom is sealed.
    pub fn is_sealed(&self, atom: AtomNo) -> bool
        requires { IsAtom self.now atom.0 }
        ensures { result ≡ is_sealed self.now atom.0 }
    {
        self.states[(atom.0 - 1) as usize].sealed
    }

    /// Whether an atom is committed.
    pub fn is_committed(&self, atom: AtomNo) -> bool
        requires { IsAtom self.now atom.0 }
        ensures { result ≡ is_committed self.now atom.0 }
    {
        self.states[(atom.0 - 1) as usize].committed
    }

    /// The atom that owns a node: none exactly where the node is clean.
    pub fn owner(&self, node: NodeId) -> Option<AtomNo>
        ensures owner { option_map (λ a. a.0) result ≡ owner_of self.now node.0 }
        ensures atom { IfSome result (λ a. IsAtom self.now a.0) }
    {
        match self.owners.get(node.0) {
            Some(txn) => {
                let name = self.forest.name(txn - 1);
                if self.states[name as usize].cleaned {
                    None
                } else {
                    Some(AtomNo(name + 1))
                }
            }
            None => None,
        }
    }

    /// The nodes that an atom owns, each once, rising. The only error is want of memory.
    pub fn nodes(&self, alloc: Global, atom: AtomNo) -> Result<Vec<NodeId>, Memory>
        requires { IsAtom self.now atom.0 }
        ensures rising { IfOk result (λ v. IsStrictlyIncreasing (numbers v.items)) }
        ensures owned { IfOk result (λ v. (n : ℕ) → Contains (numbers v.items) n ↔ (owner_of self.now n ≡ Some atom.0)) }
    {
        let all = self.owners.nodes(alloc)?;
        self.owned_of(alloc, all.as_slice(), atom)
    }

    // Those of these nodes that an atom owns.
    fn owned_of(&self, alloc: Global, all: &[u64], atom: AtomNo) -> Result<Vec<NodeId>, Memory>
        ensures { IfOk result (λ v. numbers v.items ≡ filter (owns self.now atom.0) all.now) }
    {
        let mut nodes = Vec::new(alloc);
        for node in all {
            if self.is_owner(atom, NodeId(*node)) {
                nodes.push(NodeId(*node))?;
            }
        }
        Ok(nodes)
    }

    // Whether an atom owns a node.
    fn is_owner(&self, atom: AtomNo, node: NodeId) -> bool
        ensures { result ≡ owns self.now atom.0 node.0 }
    {
        match self.owner(node) {
            Some(by) => by.0 == atom.0,
            None => false,
        }
    }

    /// Makes room for at least so many captures. The only error is want of memory.
    pub fn room(&mut self, alloc: Global, nodes: u64) -> Result<(), Memory>
        ensures txns { self.new.txns ≡ self.old.txns }
        ensures atoms { self.new.atoms ≡ self.old.atoms }
        ensures owners { (n : ℕ) → owner_of self.new n ≡ owner_of self.old n }
        ensures ok { OnOk result (self.new.spare ≡ max self.old.spare nodes) }
        ensures succeeds { nodes ≤ self.old.spare → IsOk result }
        ensures room { self.new.txn_spare ≡ self.old.txn_spare }
        ensures err { OnErr result (self.new ≡ self.old) }
    {
        let _ = alloc;
        self.owners.room(nodes)
    }

    /// Makes room for at least so many transactions. The only error is want of memory.
    pub fn room_for_txns(&mut self, alloc: Global, txns: u64) -> Result<(), Memory>
        ensures ok { OnOk result (self.new ≡ record self.old { txn_spare = max self.old.txn_spare txns }) }
        ensures succeeds { txns ≤ self.old.txn_spare → IsOk result }
        ensures err { OnErr result (self.new ≡ self.old) }
    {
        let _ = alloc;
        if self.forest.spare() < txns {
            self.rows.reserve(txns as usize)?;
            self.states.reserve(txns as usize)?;
            self.scripts.room(txns)?;
            self.forest.room(txns)?;
        }
        Ok(())
    }

    /// A new open transaction of a script, alone in its atom, of which nothing is charged. The only error is want of
    /// memory; it does not come where there is room for a transaction.
    pub fn begin(&mut self, alloc: Global, script: ScriptNo) -> Result<TxnNo, Memory>
        requires { length self.old.txns < 4294967295 }
        ensures number { IfOk result (λ t. t.0 ≡ length self.old.txns + 1) }
        ensures txns { OnOk result (self.new.txns ≡ self.old.txns ++ new_txn script.0 (length self.old.txns + 1) ∷ []) }
        ensures atoms { OnOk result (self.new.atoms ≡ self.old.atoms ++ new_atom ∷ []) }
        ensures owners { (n : ℕ) → owner_of self.new n ≡ owner_of self.old n }
        ensures spare { self.new.spare ≡ self.old.spare }
        ensures room { 0 < self.old.txn_spare → IsOk result }
        ensures used { self.old.txn_spare ≤ self.new.txn_spare + 1 }
        ensures err { OnErr result (self.new ≡ self.old) }
    {
        self.room_for_txns(alloc, 1)?;
        Ok(self.add(script))
    }

    // A new open transaction, for which there is room.
    fn add(&mut self, script: ScriptNo) -> TxnNo
        requires few { length self.old.txns < 4294967295 }
        requires room { 0 < self.old.txn_spare }
        ensures number { result.0 ≡ length self.old.txns + 1 }
        ensures txns { self.new.txns ≡ self.old.txns ++ new_txn script.0 (length self.old.txns + 1) ∷ [] }
        ensures atoms { self.new.atoms ≡ self.old.atoms ++ new_atom ∷ [] }
        ensures captured { self.new.captured ≡ self.old.captured }
        ensures owners { (n : ℕ) → owner_of self.new n ≡ owner_of self.old n }
        ensures spare { self.new.spare ≡ self.old.spare }
        ensures used { self.new.txn_spare ≡ self.old.txn_spare - 1 }
    {
        push_row(&mut self.rows, script);
        push_state(&mut self.states);
        self.forest.push();
        self.scripts.push(script.0);
        TxnNo(self.rows.len() as u32)
    }

    /// Makes an atom, which is not sealed, the owner of a node. It is refused where another atom that is not sealed owns
    /// the node; a sealed one loses it. Where there is room, it takes no memory and uses up at most one place.
    pub fn capture(&mut self, alloc: Global, atom: AtomNo, node: NodeId) -> Result<(), CaptureFault>
        requires { IsOpenAtom self.old atom.0 }
        ensures txns { self.new.txns ≡ self.old.txns }
        ensures atoms { self.new.atoms ≡ self.old.atoms }
        ensures owners { OnOk result ((n : ℕ) → owner_of self.new n ≡ (if node.0 == n then Some atom.0 else owner_of self.old n)) }
        ensures free { OnOk result (IsFreeFor self.old atom.0 node.0) }
        ensures owned { IfErr result (IsRefused self.old atom.0 node.0) }
        ensures spare { self.old.spare ≤ self.new.spare + 1 }
        ensures room { self.new.txn_spare ≡ self.old.txn_spare }
        ensures err { OnErr result (self.new ≡ self.old) }
    {
        if let Some(by) = self.other_owner(atom, node) {
            return Err(CaptureFault::Owned { by });
        }
        if self.owners.room(1).is_err() {
            return Err(CaptureFault::Memory);
        }
        let _ = alloc;
        self.owners.set(node.0, atom.0);
        self.forget_clean();
        Ok(())
    }

    // Looks at two nodes that got a label, and takes it away from those that have no owner any more. So what is clean
    // leaves the table as other nodes come, twice as fast.
    fn forget_clean(&mut self)
        ensures txns { self.new.txns ≡ self.old.txns }
        ensures atoms { self.new.atoms ≡ self.old.atoms }
        ensures owners { (n : ℕ) → owner_of self.new n ≡ owner_of self.old n }
        ensures spare { self.new.spare ≡ self.old.spare }
        ensures room { self.new.txn_spare ≡ self.old.txn_spare }
    {
        self.forget_next();
        self.forget_next();
    }

    // The same with one node.
    fn forget_next(&mut self)
        ensures txns { self.new.txns ≡ self.old.txns }
        ensures atoms { self.new.atoms ≡ self.old.atoms }
        ensures owners { (n : ℕ) → owner_of self.new n ≡ owner_of self.old n }
        ensures spare { self.new.spare ≡ self.old.spare }
        ensures room { self.new.txn_spare ≡ self.old.txn_spare }
    {
        if let Some(node) = self.owners.next_noted() {
            if self.owner(NodeId(node)).is_none() {
                self.owners.drop_noted();
                self.owners.remove(node);
            }
        }
    }

    // Another atom that is not sealed and owns the node.
    fn other_owner(&self, atom: AtomNo, node: NodeId) -> Option<AtomNo>
        ensures { MatchOption result (IsFreeFor self.now atom.0 node.0) (IsOtherOwner self.now atom.0 node.0) }
    {
        let by = self.owner(node)?;
        if by.0 == atom.0 {
            return None;
        }
        if self.is_sealed(by) {
            return None;
        }
        Some(by)
    }

    /// Makes one atom of two that are not sealed, and answers it: the smaller one. It has the transactions, the nodes and
    /// the accounts of both; the other one has none. The two may be one, and then all stays. It takes no memory.
    pub fn fuse(&mut self, one: AtomNo, two: AtomNo) -> AtomNo
        requires one { IsOpenAtom self.old one.0 }
        requires two { IsOpenAtom self.old two.0 }
        requires sums { one.0 ≢ two.0 → FitTogether (account_of self.old one.0) (account_of self.old two.0) }
        ensures kept { result.0 ≡ min one.0 two.0 }
        ensures txns { self.new.txns ≡ map (renamed_txn (min one.0 two.0) (max one.0 two.0)) self.old.txns }
        ensures owners { (n : ℕ) → owner_of self.new n ≡ option_map (renamed (min one.0 two.0) (max one.0 two.0)) (owner_of self.old n) }
        ensures atoms { one.0 ≢ two.0 → self.new.atoms ≡ joined self.old.atoms (min one.0 two.0 - 1) (max one.0 two.0 - 1) }
        ensures itself { one.0 ≡ two.0 → self.new ≡ self.old }
        ensures spare { self.new.spare ≡ self.old.spare }
        ensures room { self.new.txn_spare ≡ self.old.txn_spare }
    {
        if one.0 < two.0 {
            self.join(one, two);
            one
        } else if two.0 < one.0 {
            self.join(two, one);
            two
        } else {
            one
        }
    }

    // Makes one atom of two, of which the smaller one stays.
    fn join(&mut self, kept: AtomNo, gone: AtomNo)
        requires less { kept.0 < gone.0 }
        requires kept { IsOpenAtom self.old kept.0 }
        requires gone { IsOpenAtom self.old gone.0 }
        requires sums { FitTogether (account_of self.old kept.0) (account_of self.old gone.0) }
        ensures txns { self.new.txns ≡ map (renamed_txn kept.0 gone.0) self.old.txns }
        ensures owners { (n : ℕ) → owner_of self.new n ≡ option_map (renamed kept.0 gone.0) (owner_of self.old n) }
        ensures atoms { self.new.atoms ≡ joined self.old.atoms (kept.0 - 1) (gone.0 - 1) }
        ensures spare { self.new.spare ≡ self.old.spare }
        ensures room { self.new.txn_spare ≡ self.old.txn_spare }
    {
        let to = kept.0 - 1;
        let from = gone.0 - 1;
        self.forest.join(to, from);
        join_rows(&mut self.rows, to, from);
        join_states(&mut self.states, to, from);
    }

    /// Sets the account of an atom.
    pub fn charge(&mut self, atom: AtomNo, account: Account)
        requires { IsAtom self.old atom.0 }
        ensures { self.new ≡ with_state self.old atom.0 (record (state_of self.old atom.0) { account = account }) }
    {
        self.states[(atom.0 - 1) as usize].account = account;
    }

    /// Ends a transaction.
    pub fn close(&mut self, txn: TxnNo)
        requires begun { IsBegun self.old txn.0 }
        requires is_open { (txn_of self.old txn.0).is_open ≡ true }
        ensures { self.new ≡ record self.old { txns = slice_set self.old.txns (txn.0 - 1) (record (txn_of self.old txn.0) { is_open = false }) } }
    {
        let at = txn.0 - 1;
        let name = self.forest.name(at);
        end_row(&mut self.rows, at, name);
    }

    /// Seals an atom that was never sealed and has no open transaction.
    pub fn seal(&mut self, atom: AtomNo) -> Result<(), StillOpen>
        requires { IsOpenAtom self.old atom.0 }
        ensures ok { OnOk result ((t : ℕ) → IsOpenIn self.old atom.0 t → ⊥) }
        ensures sealed { OnOk result (self.new ≡ with_state self.old atom.0 (record (state_of self.old atom.0) { sealed = true })) }
        ensures still_open { IfErr result (λ e. IsSmallestOpen self.old atom.0 e.txn.0) }
        ensures err { OnErr result (self.new ≡ self.old) }
    {
        match self.first_open(atom) {
            Some(txn) => Err(StillOpen { txn }),
            None => {
                self.states[(atom.0 - 1) as usize].sealed = true;
                Ok(())
            }
        }
    }

    // The smallest open transaction of an atom.
    fn first_open(&self, atom: AtomNo) -> Option<TxnNo>
        requires { IsAtom self.now atom.0 }
        ensures { MatchOption result ((t : ℕ) → IsOpenIn self.now atom.0 t → ⊥) (λ t. IsSmallestOpen self.now atom.0 t.0) }
    {
        let first = atom.0 - 1;
        if self.rows[first as usize].open_txns == 0 {
            return None;
        }
        let begun = self.begun();
        for at in first..begun {
            if self.is_open_of(TxnNo(at + 1), atom) {
                return Some(TxnNo(at + 1));
            }
        }
        None
    }

    // Whether a transaction is open and of this atom.
    fn is_open_of(&self, txn: TxnNo, atom: AtomNo) -> bool
        requires { IsBegun self.now txn.0 }
        ensures { MatchBool result (IsOpenIn self.now atom.0 txn.0) (IsOpenIn self.now atom.0 txn.0 → ⊥) }
    {
        if self.is_open(txn) {
            self.atom(txn).0 == atom.0
        } else {
            false
        }
    }

    /// Says of a sealed atom that it is committed. It owns its nodes until they are made clean.
    pub fn commit(&mut self, atom: AtomNo)
        requires atom { IsAtom self.old atom.0 }
        requires sealed { is_sealed self.old atom.0 ≡ true }
        requires once { is_committed self.old atom.0 ≡ false }
        ensures { self.new ≡ with_state self.old atom.0 (record (state_of self.old atom.0) { committed = true }) }
    {
        self.states[(atom.0 - 1) as usize].committed = true;
        self.low = first_uncommitted(&self.forest, self.states.as_slice(), self.low);
    }

    /// The smallest atom that was never sealed and has no open transaction.
    pub fn next_closed(&self) -> Option<AtomNo>
        ensures { MatchOption result ((a : ℕ) → IsClosedAtom self.now a → ⊥) (λ a. IsSmallestClosed self.now a.0) }
    {
        let begun = self.begun();
        for at in self.low..begun {
            if self.is_closed_atom(at) {
                return Some(AtomNo(at + 1));
            }
        }
        None
    }

    // Whether a number is an atom that was never sealed and has no open transaction.
    fn is_closed_atom(&self, at: u32) -> bool
        requires { at < length self.now.txns }
        ensures { MatchBool result (IsClosedAtom self.now (at + 1)) (IsClosedAtom self.now (at + 1) → ⊥) }
    {
        if self.forest.name(at) != at {
            return false;
        }
        if self.states[at as usize].sealed {
            return false;
        }
        self.rows[at as usize].open_txns == 0
    }

    /// Whether each transaction of a script is in a committed atom.
    pub fn all_committed(&self, script: ScriptNo) -> bool
        ensures { MatchBool result (AllCommitted self.now script.0) (AllCommitted self.now script.0 → ⊥) }
    {
        let mut at = self.scripts.last(script.0);
        while self.low < at {
            if self.is_uncommitted(TxnNo(at), script) {
                return false;
            }
            at = self.scripts.before(at);
        }
        true
    }

    // Whether a transaction is of the script, and its atom is not committed.
    fn is_uncommitted(&self, txn: TxnNo, script: ScriptNo) -> bool
        requires { IsBegun self.now txn.0 }
        ensures { MatchBool result (((txn_of self.now txn.0).script ≡ script.0) × (is_committed self.now (atom_of self.now txn.0) ≡ false)) ((txn_of self.now txn.0).script ≡ script.0 → is_committed self.now (atom_of self.now txn.0) ≡ true) }
    {
        if self.script(txn).0 == script.0 {
            let name = self.forest.name(txn.0 - 1);
            !self.states[name as usize].committed
        } else {
            false
        }
    }

    /// What of a script is in atoms that are not sealed: the smallest such atom without an open transaction; where each
    /// has one, the smallest one and its smallest open transaction.
    pub fn uncommitted_of(&self, script: ScriptNo) -> Uncommitted
        ensures { IsUncommittedOf self.now script.0 result }
    {
        self.lawful();
        if let Some(atom) = self.smallest_of(script, true) {
            return Uncommitted::Closed(atom);
        }
        match self.smallest_of(script, false) {
            None => Uncommitted::None,
            Some(atom) => match self.first_open(atom) {
                Some(txn) => Uncommitted::Open { atom, txn },
                None => Uncommitted::None,
            },
        }
    }

    // The smallest atom that is not sealed and has a transaction of the script, of those without an open transaction or
    // of those with one.
    fn smallest_of(&self, script: ScriptNo, closed: bool) -> Option<AtomNo>
        ensures { MatchOption result (NonePasses self.now (is_pending_as self.now script.0 closed)) (λ a. IsSmallestAtom self.now (is_pending_as self.now script.0 closed) a.0) }
    {
        let mut best = None;
        let mut at = self.scripts.last(script.0);
        while self.low < at {
            let txn = TxnNo(at);
            if self.is_pending(txn, script, closed) {
                best = smaller(best, self.atom(txn));
            }
            at = self.scripts.before(at);
        }
        best
    }

    // Whether a transaction is of the script and its atom is not sealed, and has no open transaction or has one.
    fn is_pending(&self, txn: TxnNo, script: ScriptNo, closed: bool) -> bool
        requires { IsBegun self.now txn.0 }
        ensures { result ≡ is_pending_as self.now script.0 closed txn.0 }
    {
        if self.script(txn).0 != script.0 {
            return false;
        }
        let name = self.forest.name(txn.0 - 1);
        if self.states[name as usize].sealed {
            return false;
        }
        closed == (self.rows[name as usize].open_txns == 0)
    }

    /// Makes the nodes of a sealed atom clean. A node that another atom captured since stays that one's.
    pub fn clean(&mut self, atom: AtomNo)
        requires atom { IsAtom self.old atom.0 }
        requires sealed { is_sealed self.old atom.0 ≡ true }
        ensures txns { self.new.txns ≡ self.old.txns }
        ensures owners { (n : ℕ) → owner_of self.new n ≡ without_owner atom.0 (owner_of self.old n) }
        ensures atoms { self.new ≡ with_state self.old atom.0 (record (state_of self.old atom.0) { cleaned = true }) }
    {
        self.states[(atom.0 - 1) as usize].cleaned = true;
    }

    /// Gives the owner of `from` the node `to` in place of it. Where the two are one, all stays; where `to` is owned already, its owner stays; `from` has
    /// none in either case. It takes no memory.
    pub fn rename(&mut self, from: NodeId, to: NodeId)
        ensures txns { self.new.txns ≡ self.old.txns }
        ensures atoms { self.new.atoms ≡ self.old.atoms }
        ensures from { from.0 ≢ to.0 → owner_of self.new from.0 ≡ None }
        ensures to { from.0 ≢ to.0 → owner_of self.new to.0 ≡ option_or (owner_of self.old to.0) (owner_of self.old from.0) }
        ensures itself { from.0 ≡ to.0 → self.new ≡ self.old }
        ensures others { (n : ℕ) → n ≢ from.0 → n ≢ to.0 → owner_of self.new n ≡ owner_of self.old n }
        ensures spare { self.new.spare ≡ self.old.spare }
        ensures room { self.new.txn_spare ≡ self.old.txn_spare }
    {
        if from == to {
            return;
        }
        if self.owner(from).is_none() {
            self.owners.remove(from.0);
        } else if self.owner(to).is_some() {
            self.owners.remove(from.0);
        } else {
            self.owners.rename(from.0, to.0);
        }
    }
}

// Adds an open transaction, for which there is room.
fn push_row(rows: &mut Vec<Row>, script: ScriptNo)
    requires { vec_len rows.old < vec_capacity rows.old }
    ensures items { rows.new.items ≡ rows.old.items ++ new_row script ∷ [] }
    ensures capacity { vec_capacity rows.old ≤ vec_capacity rows.new }
{
    let _ = rows.push(Row {
        script,
        is_open: true,
        open_txns: 1,
    });
}

// Adds an atom, for which there is room.
fn push_state(states: &mut Vec<AtomState>)
    requires { vec_len states.old < vec_capacity states.old }
    ensures items { states.new.items ≡ states.old.items ++ new_atom ∷ [] }
    ensures capacity { vec_capacity states.old ≤ vec_capacity states.new }
{
    let _ = states.push(AtomState {
        sealed: false,
        committed: false,
        cleaned: false,
        account: Account {
            cells: 0,
            fresh: 0,
            born: 0,
            gone: 0,
        },
    });
}

// Ends the transaction of a row, which is of the atom that another row names.
fn end_row(rows: &mut Vec<Row>, at: u32, name: u32)
    requires at { at < length rows.old.items }
    requires name { name < length rows.old.items }
    requires some { 0 < (row_at rows.old.items name).open_txns }
    ensures items { rows.new.items ≡ ended rows.old.items at name }
    ensures capacity { vec_capacity rows.new ≡ vec_capacity rows.old }
{
    rows[at as usize].is_open = false;
    rows[name as usize].open_txns -= 1;
}

// Gives the open transactions of one atom to another.
fn join_rows(rows: &mut Vec<Row>, to: u32, from: u32)
    requires to { to < length rows.old.items }
    requires from { from < length rows.old.items }
    requires differ { from ≢ to }
    requires sum { (row_at rows.old.items to).open_txns + (row_at rows.old.items from).open_txns < 2 ^ 32 }
    ensures items { rows.new.items ≡ joined_rows rows.old.items to from }
    ensures capacity { vec_capacity rows.new ≡ vec_capacity rows.old }
{
    let moved = rows[from as usize].open_txns;
    rows[from as usize].open_txns = 0;
    rows[to as usize].open_txns += moved;
}

// Adds the account of one atom to that of another.
fn join_states(states: &mut Vec<AtomState>, to: u32, from: u32)
    requires to { to < length states.old.items }
    requires from { from < length states.old.items }
    requires differ { from ≢ to }
    requires sums { FitTogether (state_at states.old.items to).account (state_at states.old.items from).account }
    ensures items { states.new.items ≡ joined states.old.items to from }
    ensures capacity { vec_capacity states.new ≡ vec_capacity states.old }
{
    let moved = states[from as usize].account;
    states[from as usize].account = Account {
        cells: 0,
        fresh: 0,
        born: 0,
        gone: 0,
    };
    let had = states[to as usize].account;
    states[to as usize].account = sum(&had, &moved);
}

// The sums of two accounts.
fn sum(one: &Account, two: &Account) -> Account
    requires { FitTogether one.now two.now }
    ensures { result ≡ sum_of one.now two.now }
{
    Account {
        cells: one.cells + two.cells,
        fresh: one.fresh + two.fresh,
        born: one.born + two.born,
        gone: one.gone + two.gone,
    }
}

// The first number from `low` on whose set's name is not committed.
fn first_uncommitted(forest: &Forest, states: &[AtomState], low: u32) -> u32
    requires states { length states.now ≡ length forest.now.names }
    requires low { low ≤ length forest.now.names }
    requires few { length forest.now.names < 2 ^ 32 }
    requires named { AreNames forest.now.names }
    ensures within { result ≤ length forest.now.names }
    ensures settled { (i : ℕ) → low ≤ i → i < result → (state_at states.now (slice_index forest.now.names i)).committed ≡ true }
{
    let len = forest.len();
    for at in low..len {
        if !states[forest.name(at) as usize].committed {
            return at;
        }
    }
    len
}

// The smaller of two atoms, of which there may be one.
fn smaller(best: Option<AtomNo>, atom: AtomNo) -> Option<AtomNo>
    ensures least { MatchOption best (result ≡ Some atom) (λ b. IfSome result (λ a. (a.0 ≤ b.0) × (a.0 ≤ atom.0) × ((a ≡ b) ⊎ (a ≡ atom)))) }
    ensures some { IsSome result }
{
    match best {
        Some(other) => {
            if other.0 < atom.0 {
                Some(other)
            } else {
                Some(atom)
            }
        }
        None => Some(atom),
    }
}
