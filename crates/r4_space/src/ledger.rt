//! The accounts of the open atoms, and the atoms that are sealed.

ghost use Rattle.std.specs.Prelude.{◌≡◌, ℕ, ◌+◌, ◌-◌, ◌<◌, ◌≤◌, ◌≢◌, ◌↔◌, [], ◌∷◌, ◌++◌, length, max, filter, not, false, IsOk, OnOk, OnErr, IfOk, IfErr, MatchOption, vec_len, vec_capacity};
ghost use Rattle.r4_space.specs.Books.{AreUpTo};
ghost use Rattle.r4_space.specs.Accounts.{StandsAt, account_at, dues, EachOnce, is_atom, is_open, is_sealed, need_of, with_account, with_atom, with_merged, with_sealed, without_account, without_atom, due_of};

use crate::cost::price;
use crate::things::{Account, Short};
use r4_base::{AtomNo, Memory};
use std::alloc::{AllocError, Global};
use std::marker::Model;

/// The accounts of the open atoms, the sealed atoms in the order of their sealing, and `owed`, what all open atoms
/// take up. There is room for `spare` more of both. No open atom has a number above `highest`. Atoms that are opened in
/// the order of their numbers are found by halves.
#[derive(Drop)]
pub struct Ledger {
    bitmaps: u64,
    atoms: Vec<Account>,
    highest: u32,
    sealed: Vec<AtomNo>,
    owed: u64,
    spare: u64,
}

impl Model for Ledger {
    ghost use Rattle.std.specs.Prelude.{vec_capacity};
    ghost use Rattle.r4_space.specs.Books.{AreUpTo, Books, IsBooks};

    ghost Value = { Books };

    ghost view = { λ l. record { bitmaps = l.bitmaps; atoms = l.atoms.items; sealed = l.sealed.items; spare = l.spare } };

    ghost invariant = { λ l. IsBooks l.bitmaps l.atoms.items l.sealed.items l.owed l.spare (vec_capacity l.atoms) (vec_capacity l.sealed) × AreUpTo l.highest l.atoms.items };
}

impl Ledger {
    /// No atom is open or sealed, and there is room for none.
    pub fn new(alloc: Global, bitmaps: u64) -> Ledger
        requires { bitmaps ≤ 64 }
        ensures { result ≡ record { bitmaps = bitmaps; atoms = []; sealed = []; spare = 0 } }
    {
        Ledger {
            bitmaps,
            atoms: Vec::new(alloc),
            highest: 0,
            sealed: Vec::new(alloc),
            owed: 0,
            spare: 0,
        }
    }

    /// What all open atoms take up.
    pub fn owed(&self) -> u64
        ensures { result ≡ dues self.now.bitmaps self.now.atoms }
    {
        self.owed
    }

    /// The sealed atoms, the first one first.
    pub fn sealed(&self) -> &[AtomNo]
        ensures { result.now ≡ self.now.sealed }
    {
        self.sealed.as_slice()
    }

    /// What holds of all accounts. It does nothing.
    pub fn lawful(&self)
        ensures once { EachOnce self.now.atoms }
        ensures small { dues self.now.bitmaps self.now.atoms ≤ 1048576 }
    {
        let _ = &self.owed;
    }

    /// For how many calls there is room.
    pub fn spare(&self) -> u64
        ensures { result ≡ self.now.spare }
    {
        self.spare
    }

    /// Makes room for at least so many calls.
    pub fn reserve(&mut self, calls: u64) -> Result<(), Memory>
        ensures ok { OnOk result (self.new ≡ record self.old { spare = max self.old.spare calls }) }
        ensures err { OnErr result (self.new ≡ self.old) }
    {
        let both = calls
            .checked_add(self.atoms.len() as u64)
            .ok_or(AllocError)?;
        self.atoms.reserve(calls as usize)?;
        self.sealed.reserve(both as usize)?;
        self.spare = self.spare.max(calls);
        Ok(())
    }

    /// The same accounts, with the same room.
    pub fn copy(&self, alloc: Global) -> Result<Ledger, Memory>
        ensures { IfOk result (λ l. l ≡ self.now) }
    {
        Ok(Ledger {
            bitmaps: self.bitmaps,
            atoms: copied(alloc, self.atoms.as_slice(), self.spare)?,
            highest: self.highest,
            sealed: copied(
                alloc,
                self.sealed.as_slice(),
                self.atoms.len() as u64 + self.spare,
            )?,
            owed: self.owed,
            spare: self.spare,
        })
    }

    /// Sets the numbers of an atom, where what is free of so many unused blocks is enough for it.
    pub fn charge(&mut self, unused: u64, atom: AtomNo, cells: u64, fresh: u64) -> Result<(), Short>
        requires unused { unused ≤ 1048576 }
        requires cells { cells < 4294967296 }
        requires fresh { fresh < 4294967296 }
        requires room { 0 < self.old.spare }
        ensures ok { OnOk result (need_of self.old.bitmaps self.old.atoms atom cells fresh ≤ unused - dues self.old.bitmaps self.old.atoms) }
        ensures charged { OnOk result (self.new ≡ record self.old { atoms = with_account self.old.atoms (record { atom = atom; cells = cells; fresh = fresh }); spare = self.old.spare - 1 }) }
        ensures short { IfErr result (λ e. (e.free < e.need) × (e.need ≡ need_of self.old.bitmaps self.old.atoms atom cells fresh) × (e.free ≡ unused - dues self.old.bitmaps self.old.atoms)) }
        ensures stays { OnErr result (self.new ≡ record self.old { spare = self.old.spare - 1 }) }
    {
        let atoms = self.atoms.as_slice();
        let at = position(atoms, self.highest, atom);
        let before = due(&account_at(atoms, at, atom), self.bitmaps);
        let after = price(cells, self.bitmaps) + fresh;
        let need = after.saturating_sub(before);
        let free = unused.saturating_sub(self.owed);
        self.spare -= 1;
        if need > free {
            return Err(Short { need, free });
        }
        put(&mut self.atoms, at, Account { atom, cells, fresh });
        self.highest = self.highest.max(atom.0);
        self.owed = self.owed - before + after;
        Ok(())
    }

    /// Opens an atom that is neither open nor sealed.
    pub fn open(&mut self, atom: AtomNo)
        requires { 0 < self.old.spare }
        ensures { self.new ≡ record self.old { atoms = with_atom self.old.atoms self.old.sealed atom; spare = self.old.spare - 1 } }
    {
        self.spare -= 1;
        if is_sealed(self.sealed.as_slice(), atom) {
            return;
        }
        let None = position(self.atoms.as_slice(), self.highest, atom) else {
            return;
        };
        add(&mut self.atoms, no_account(atom));
        self.highest = self.highest.max(atom.0);
    }

    /// Uses up one of the calls for which there is room.
    pub fn use_up(&mut self)
        requires { 0 < self.old.spare }
        ensures { self.new ≡ record self.old { spare = self.old.spare - 1 } }
    {
        self.spare -= 1;
    }

    /// Adds the account of `gone` to that of `kept`.
    pub fn merge(&mut self, kept: AtomNo, gone: AtomNo)
        requires { kept.0 ≢ gone.0 }
        ensures { self.new ≡ record self.old { atoms = with_merged self.old.atoms kept gone } }
    {
        let atoms = self.atoms.as_slice();
        let Some(from) = position(atoms, self.highest, gone) else {
            return;
        };
        let to = position(atoms, self.highest, kept);
        let had = account_at(atoms, to, kept);
        let left = account_at(atoms, Some(from), gone);
        let sum = Account {
            atom: kept,
            cells: had.cells + left.cells,
            fresh: had.fresh + left.fresh,
        };
        self.owed = self.owed - due(&had, self.bitmaps) - due(&left, self.bitmaps)
            + due(&sum, self.bitmaps);
        forget(&mut self.atoms, Some(from), gone);
        let at = position(self.atoms.as_slice(), self.highest, kept);
        put(&mut self.atoms, at, sum);
        self.highest = self.highest.max(kept.0);
    }

    /// Seals an open atom: its account goes.
    pub fn seal(&mut self, atom: AtomNo)
        ensures { self.new ≡ record self.old { atoms = without_account atom self.old.atoms; sealed = with_sealed self.old.atoms self.old.sealed atom } }
    {
        let atoms = self.atoms.as_slice();
        let Some(at) = position(atoms, self.highest, atom) else {
            return;
        };
        self.owed -= due(&account_at(atoms, Some(at), atom), self.bitmaps);
        forget(&mut self.atoms, Some(at), atom);
        add(&mut self.sealed, atom);
    }

    /// Forgets an atom, be it sealed or open.
    pub fn settle(&mut self, atom: AtomNo)
        ensures { self.new ≡ record self.old { atoms = without_account atom self.old.atoms; sealed = without_atom atom self.old.sealed } }
    {
        let atoms = self.atoms.as_slice();
        let at = position(atoms, self.highest, atom);
        self.owed -= due(&account_at(atoms, at, atom), self.bitmaps);
        forget(&mut self.atoms, at, atom);
        self.sealed.retain(|a| a.0 != atom.0);
    }
}

fn no_account(atom: AtomNo) -> Account
    ensures { result ≡ record { atom = atom; cells = 0; fresh = 0 } }
{
    Account {
        atom,
        cells: 0,
        fresh: 0,
    }
}

/// Where the account of an atom stands. It is looked for by halves, and one by one only where that does not find it,
/// among atoms that were not opened in the order of their numbers.
fn position(atoms: &[Account], highest: u32, atom: AtomNo) -> Option<usize>
    requires { AreUpTo highest atoms.now }
    ensures { MatchOption result (is_open atoms.now atom ≡ false) (StandsAt atoms.now atom) }
{
    if highest < atom.0 {
        return None;
    }
    let near = atoms.partition_point(|a| a.atom.0 < atom.0);
    if near < atoms.len() && atoms[near].atom.0 == atom.0 {
        return Some(near);
    }
    among(atoms, atom)
}

/// Where the account of an atom stands, looked for one by one.
fn among(atoms: &[Account], atom: AtomNo) -> Option<usize>
    ensures { MatchOption result (is_open atoms.now atom ≡ false) (StandsAt atoms.now atom) }
{
    for (i, account) in atoms.iter().enumerate() {
        if account.atom.0 == atom.0 {
            return Some(i);
        }
    }
    None
}

/// The account of an atom, which stands there; one that has none has no cells.
fn account_at(atoms: &[Account], at: Option<usize>, atom: AtomNo) -> Account
    requires once { EachOnce atoms.now }
    requires at { MatchOption at (is_open atoms.now atom ≡ false) (StandsAt atoms.now atom) }
    ensures { result ≡ account_at atoms.now atom }
{
    match at {
        Some(i) => atoms[i],
        None => no_account(atom),
    }
}

fn is_sealed(sealed: &[AtomNo], atom: AtomNo) -> bool
    ensures { result ≡ is_sealed sealed.now atom }
{
    sealed.iter().any(|a| a.0 == atom.0)
}

/// What an atom takes up.
fn due(account: &Account, bitmaps: u64) -> u64
    requires cells { account.now.cells < 4294967296 }
    requires fresh { account.now.fresh < 4294967296 }
    requires bitmaps { bitmaps ≤ 64 }
    ensures { result ≡ due_of bitmaps account.now }
{
    price(account.cells, bitmaps) + account.fresh
}

/// Adds an element for which there is room.
pub fn add<T: Drop>(items: &mut Vec<T>, item: T)
    requires { vec_len items.old < vec_capacity items.old }
    ensures items { items.new.items ≡ items.old.items ++ item ∷ [] }
    ensures capacity { vec_capacity items.old ≤ vec_capacity items.new }
{
    let _ = items.push(item);
}

/// The same elements, with room for so many more.
pub fn copied<T: Copy + Drop>(alloc: Global, items: &[T], more: u64) -> Result<Vec<T>, Memory>
    requires { length items.now + more < 18446744073709551616 }
    ensures items { IfOk result (λ v. v.items ≡ items.now) }
    ensures room { IfOk result (λ v. length items.now + more ≤ vec_capacity v) }
{
    let mut copy = Vec::with_capacity(alloc, items.len() + more as usize)?;
    copy.extend_from_slice(items)?;
    Ok(copy)
}

/// Takes out the account of an atom, which stands there.
fn forget(atoms: &mut Vec<Account>, at: Option<usize>, atom: AtomNo)
    requires once { EachOnce atoms.old.items }
    requires at { MatchOption at (is_open atoms.old.items atom ≡ false) (StandsAt atoms.old.items atom) }
    ensures items { atoms.new.items ≡ without_account atom atoms.old.items }
    ensures capacity { vec_capacity atoms.new ≡ vec_capacity atoms.old }
{
    if let Some(i) = at {
        atoms.remove(i);
    }
}

/// Puts an account in place of its atom's, which stands there, or behind the others.
fn put(atoms: &mut Vec<Account>, at: Option<usize>, account: Account)
    requires room { vec_len atoms.old < vec_capacity atoms.old }
    requires once { EachOnce atoms.old.items }
    requires at { MatchOption at (is_open atoms.old.items account.atom ≡ false) (StandsAt atoms.old.items account.atom) }
    ensures items { atoms.new.items ≡ with_account atoms.old.items account }
    ensures capacity { vec_capacity atoms.old ≤ vec_capacity atoms.new }
{
    match at {
        Some(i) => atoms[i] = account,
        None => add(atoms, account),
    }
}
