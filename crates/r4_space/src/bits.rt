//! A set of the first numbers, in words.

ghost use Rattle.std.specs.Prelude.{◌≡◌, ℕ, ◌+◌, ◌*◌, ◌<◌, ◌≤◌, length, replicate, true, false, ◌==◌, ◌||◌, slice_set, slice_index_or, IfOk};
ghost use Rattle.std.specs.Int.{bit_at};
ghost use Rattle.r4_space.specs.TakenWords.{AreWords};
ghost use Rattle.r4_space.specs.Words.{first_bits};

use crate::taken::zeros;
use crate::words::{clear_bit, get_bit, half_of, join_words, set_bit, wipe};
use r4_base::Memory;
use std::alloc::Global;
use std::marker::Model;

/// Which of the numbers below a length are in a set: contracts see a list of bits. Bit `i` is bit `i % 64` of word
/// `i / 64`.
#[derive(Drop)]
pub struct Bits {
    size: u64,
    words: Vec<u64>,
}

impl Model for Bits {
    ghost use Rattle.std.specs.Prelude.{List, Bool};
    ghost use Rattle.r4_space.specs.Words.{first_bits};
    ghost use Rattle.r4_space.specs.TakenWords.{AreWords};

    ghost Value = { List Bool };

    ghost view = { λ t. first_bits t.size t.words.items };

    ghost invariant = { λ t. AreWords t.size t.words.items };
}

impl Bits {
    /// A set of numbers below `size` in which none is.
    pub fn new(alloc: Global, size: u64) -> Result<Bits, Memory>
        requires { size ≤ 1048576 }
        ensures { IfOk result (λ t. t ≡ replicate size false) }
    {
        Ok(Bits {
            size,
            words: zeros(alloc, (size / 64 + 1) as usize)?,
        })
    }

    /// The set whose bits stand in these words.
    pub(crate) fn of_words(size: u64, words: Vec<u64>) -> Bits
        requires { AreWords size words.items }
        ensures { result ≡ first_bits size words.items }
    {
        Bits { size, words }
    }

    /// The same set.
    pub fn copy(&self, alloc: Global) -> Result<Bits, Memory>
        ensures { IfOk result (λ t. t ≡ self.now) }
    {
        Ok(Bits {
            size: self.size,
            words: self.words.to_vec(alloc)?,
        })
    }

    /// How many numbers may be in the set.
    pub fn len(&self) -> u64
        ensures { result ≡ length self.now }
    {
        self.size
    }

    /// Whether number `i` is in the set.
    pub fn has(&self, i: u64) -> bool
        requires { i < length self.now }
        ensures { result ≡ slice_index_or self.now i false }
    {
        get_bit(self.words.as_slice(), i)
    }

    /// Puts number `i` into the set.
    pub fn put(&mut self, i: u64)
        requires { i < length self.old }
        ensures { self.new ≡ slice_set self.old i true }
    {
        set_bit(self.words.as_mut_slice(), i);
    }

    /// Takes number `i` out of the set.
    pub fn take(&mut self, i: u64)
        requires { i < length self.old }
        ensures { self.new ≡ slice_set self.old i false }
    {
        clear_bit(self.words.as_mut_slice(), i);
    }

    /// Puts each number of another set into this one.
    pub fn join(&mut self, other: &Bits)
        requires { length self.old ≡ length other.now }
        ensures size { length self.new ≡ length self.old }
        ensures each { (b : ℕ) → slice_index_or self.new b false ≡ (slice_index_or self.old b false || slice_index_or other.now b false) }
    {
        join_words(self.words.as_mut_slice(), other.words.as_slice());
    }

    /// Makes the set empty.
    pub fn wipe(&mut self)
        ensures { self.new ≡ replicate (length self.old) false }
    {
        wipe(self.words.as_mut_slice());
    }

    /// Which of the 32 numbers from `32 * h` on are in the set, the lowest bit first.
    pub fn half(&self, h: u64) -> u32
        requires { 32 * h < length self.now }
        ensures { (j : ℕ) → j < 32 → 32 * h + j < length self.now → (bit_at result j == 1) ≡ slice_index_or self.now (32 * h + j) false }
    {
        half_of(self.words.as_slice(), h)
    }
}
