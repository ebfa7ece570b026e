//! A set of the first numbers, in which the next number that is not there is found by a few words.

ghost use Rattle.std.specs.Prelude.{◌≡◌, ◌<◌, ◌≤◌, length, replicate, true, false, not, count_by, slice_set, slice_index_or, IfOk, MatchOption};
ghost use Rattle.r4_space.specs.Words.{IsFirstClear, IsFull, IsNextClear};

use crate::words::{first_clear, get_bit, give_bit, take_bit, wipe};
use r4_base::Memory;
use std::alloc::Global;
use std::marker::Model;

/// Which of the numbers below a length are taken: contracts see a list of bits. Bit `i` is bit `i % 64` of word
/// `i / 64`. `full` tells which words are full, and `fuller` which words of `full` are.
#[derive(Drop)]
pub struct Taken {
    size: u64,
    words: Vec<u64>,
    full: Vec<u64>,
    fuller: Vec<u64>,
    clear: u64,
}

impl Model for Taken {
    ghost use Rattle.std.specs.Prelude.{List, Bool};
    ghost use Rattle.r4_space.specs.Words.{first_bits};

    ghost Value = { List Bool };

    ghost use Rattle.r4_space.specs.TakenWords.{IsTaken};

    ghost view = { λ t. first_bits t.size t.words.items };

    ghost invariant = { λ t. IsTaken t.size t.words.items t.full.items t.fuller.items t.clear };
}

impl Taken {
    /// A set of numbers below `size` in which none is taken.
    pub fn new(alloc: Global, size: u64) -> Result<Taken, Memory>
        requires { size ≤ 1048576 }
        ensures { IfOk result (λ t. t ≡ replicate size false) }
    {
        Ok(Taken {
            size,
            words: zeros(alloc, (size / 64 + 1) as usize)?,
            full: zeros(alloc, (size / 4096 + 1) as usize)?,
            fuller: zeros(alloc, (size / 262_144 + 1) as usize)?,
            clear: size,
        })
    }

    /// The same set.
    pub fn copy(&self, alloc: Global) -> Result<Taken, Memory>
        ensures { IfOk result (λ t. t ≡ self.now) }
    {
        Ok(Taken {
            size: self.size,
            words: copied(alloc, self.words.as_slice())?,
            full: copied(alloc, self.full.as_slice())?,
            fuller: copied(alloc, self.fuller.as_slice())?,
            clear: self.clear,
        })
    }

    /// How many numbers are not taken.
    pub fn clear(&self) -> u64
        ensures count { result ≡ count_by not self.now }
        ensures within { result ≤ length self.now }
    {
        self.clear
    }

    /// Whether number `i` is taken.
    pub fn has(&self, i: u64) -> bool
        requires { i < length self.now }
        ensures { result ≡ slice_index_or self.now i true }
    {
        get_bit(self.words.as_slice(), i)
    }

    /// The first number from `from` on that is not taken.
    pub fn next(&self, from: u64) -> Option<u64>
        ensures { MatchOption result (IsFull (λ k. slice_index_or self.now k true) (length self.now) from) (IsFirstClear (λ k. slice_index_or self.now k true) (length self.now) from) }
    {
        let found = first_clear(
            self.words.as_slice(),
            self.full.as_slice(),
            self.fuller.as_slice(),
            from,
        );
        match found {
            Some(i) if i < self.size => found,
            _ => None,
        }
    }

    /// The first number from `near` on that is not taken, or else the first of all.
    pub fn next_around(&self, near: u64) -> Option<u64>
        ensures { MatchOption result (IsFull (λ k. slice_index_or self.now k true) (length self.now) 0) (IsNextClear (λ k. slice_index_or self.now k true) (length self.now) near) }
    {
        let ahead = self.next(near);
        if ahead.is_some() {
            return ahead;
        }
        self.next(0)
    }

    /// Takes number `i`.
    pub fn take(&mut self, i: u64)
        requires { i < length self.old }
        ensures { self.new ≡ slice_set self.old i true }
    {
        if get_bit(self.words.as_slice(), i) {
            return;
        }
        take_bit(
            self.words.as_mut_slice(),
            self.full.as_mut_slice(),
            self.fuller.as_mut_slice(),
            i,
        );
        self.clear -= 1;
    }

    /// Gives number `i` back.
    pub fn give(&mut self, i: u64)
        requires { i < length self.old }
        ensures { self.new ≡ slice_set self.old i false }
    {
        if !get_bit(self.words.as_slice(), i) {
            return;
        }
        give_bit(
            self.words.as_mut_slice(),
            self.full.as_mut_slice(),
            self.fuller.as_mut_slice(),
            i,
        );
        self.clear += 1;
    }

    /// Makes the set empty.
    pub fn wipe(&mut self)
        ensures { self.new ≡ replicate (length self.old) false }
    {
        wipe(self.words.as_mut_slice());
        wipe(self.full.as_mut_slice());
        wipe(self.fuller.as_mut_slice());
        self.clear = self.size;
    }
}

/// The same words.
fn copied(alloc: Global, words: &[u64]) -> Result<Vec<u64>, Memory>
    ensures { IfOk result (λ v. v.items ≡ words.now) }
{
    words.to_vec(alloc)
}

/// So many words of 0.
pub fn zeros(alloc: Global, len: usize) -> Result<Vec<u64>, Memory>
    ensures { IfOk result (λ v. v.items ≡ replicate len 0) }
{
    vec![in alloc; 0u64; len]
}
