//! A block of 4096 bytes, on the heap.

ghost use Rattle.std.specs.Prelude.{◌≡◌, ◌≤◌, ◌-◌, length, slice_range, replicate, [], IfOk};
ghost use Rattle.std.specs.Borrow.{sem, Lends, Array, u8 as byte};
ghost use Rattle.r4_base.specs.contracts.block.Block.{the_row};
ghost use Rattle.r4_base.specs.Lending.{refilled, written};

use std::alloc::{AllocError, Global};
use std::marker::Model;

/// 4096 bytes, which contracts see as a list.
#[derive(Drop)]
pub struct Block {
    data: Vec<u8>,
}

impl Model for Block {
    ghost use Rattle.std.specs.Prelude.{◌≡◌, List, ℕ, length};

    ghost Value = { List ℕ };

    ghost view = { λ b. b.data.items };

    ghost invariant = { λ b. length b.data.items ≡ 4096 };
}

impl Block {
    /// A block of zeros.
    pub fn zeroed(alloc: Global) -> Result<Block, AllocError>
        ensures { IfOk result (λ b. b ≡ replicate 4096 0) }
    {
        let data = vec![in alloc; 0u8; 4096]?;
        Ok(Block { data })
    }

    /// A block with the same bytes.
    pub fn copy(&self, alloc: Global) -> Result<Block, AllocError>
        ensures { IfOk result (λ b. b ≡ self.now) }
    {
        let data = self.data.to_vec(alloc)?;
        Ok(Block { data })
    }

    /// The bytes, to be read.
    pub fn bytes(&self) -> &[u8]
        ensures value { result.now ≡ self.now }
        ensures len { length self.now ≡ 4096 }
    {
        self.data.as_slice()
    }

    /// The bytes, to be written.
    #[tactic(auto, unfolding(crate::specs::Lending::refilled))]
    pub fn bytes_mut(&mut self) -> &mut [u8]
        ensures* writes_back { sem 𝓛 (Lends the_row (Array byte 0) self.entry result (λ w. refilled self.old w)) }
        ensures value { result.now ≡ self.old }
        ensures len { length self.old ≡ 4096 }
    {
        self.data.as_mut_slice()
    }

    /// The bytes from `from` up to `to`, to be written.
    #[tactic(auto, unfolding(crate::specs::Lending::written))]
    pub fn part_mut(&mut self, from: usize, to: usize) -> &mut [u8]
        requires order { from ≤ to }
        requires within { to ≤ 4096 }
        ensures* writes_back { sem 𝓛 (Lends the_row (Array byte 0) self.entry result (λ w. written self.old from w)) }
        ensures value { result.now ≡ slice_range self.old from to }
        ensures len { length result.now ≡ to - from }
    {
        self.data.slice_mut(from..to)
    }

    /// Takes over the bytes of another block.
    #[tactic(auto, using(crate::proofs::Lent::refilled_is))]
    pub fn copy_from(&mut self, from: &Block)
        ensures { self.new ≡ from.now }
    {
        self.bytes_mut().copy_from_slice(from.bytes());
    }
}
