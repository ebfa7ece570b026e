//! Which blocks of a volume are used, and for whom.

ghost use Rattle.std.specs.Prelude.{◌≡◌, ◌≢◌, ℕ, ◌+◌, ◌-◌, ◌*◌, ◌^◌, ◌<◌, ◌≤◌, length, take, replicate, false, None, OnOk, OnErr, IfOk, IfErr, IfSome, IfNone};
ghost use Rattle.r4_base.specs.Bitmap.{bitmap_count, is_fixed, is_used};
ghost use Rattle.r4_space.specs.Accounts.{is_sealed};
ghost use Rattle.r4_space.specs.Bitmaps.{bitmaps_fault, told_space};
ghost use Rattle.r4_space.specs.Lawful.{IsLawful};
ghost use Rattle.r4_space.specs.ReadFault.{IsReadFault};
ghost use Rattle.r4_space.specs.Words.{IsFirstClear, IsFull, IsNextClear};
ghost use Rattle.r4_space.specs.Space.{charged, free_of, is_marked_by, is_taken, merged, need_at, sealed_in, settled, used_up, with_deferred, with_held, with_placed, with_room};

use crate::bits::Bits;
use crate::check::{find_fault, read_marks};
use crate::claims::{
    claim_again, drop_claims, give_back, rename, settle_marks, take_marked, unclaim,
};
use crate::ledger::{Ledger, add, copied};
use crate::marks::write_bitmap;
use crate::taken::Taken;
use crate::things::{Claim, Short, SpaceFault};
use r4_base::{AtomNo, Block, BlockNo, Memory};
use std::alloc::Global;
use std::marker::Model;

/// Which blocks of a volume are marked, placed, held or deferred, what its open atoms take up, and for how many calls
/// of `charge`, `hold` and `defer` there is room (docs/space.md).
#[derive(Drop)]
pub struct SpaceMap {
    blocks: u64,
    marked: Bits,
    placed: Bits,
    held: Vec<Claim>,
    deferred: Vec<Claim>,
    claimed: Bits,
    twice: Bits,
    taken: Taken,
    ledger: Ledger,
}

impl Model for SpaceMap {
    ghost use Rattle.std.specs.Prelude.{vec_capacity};
    ghost use Rattle.r4_space.specs.Space.{Space};
    ghost use Rattle.r4_space.specs.Kept.{IsSpace};

    ghost Value = { Space };

    ghost view = { λ s. record { block_count = s.blocks; marked = s.marked; placed = s.placed; held = s.held.items; deferred = s.deferred.items; atoms = s.ledger.atoms; sealed = s.ledger.sealed; spare = s.ledger.spare } };

    ghost invariant = { λ s. IsSpace s.blocks s.marked s.placed s.held.items s.deferred.items s.claimed s.twice s.taken s.ledger.bitmaps s.ledger.spare (vec_capacity s.held) (vec_capacity s.deferred) };
}

impl SpaceMap {
    /// Reads which blocks are marked from the bitmaps of a volume of `blocks` blocks, one for each 32736 blocks or part of
    /// them. `Bitmap` names the block of the first bitmap with a 0 for a fixed block or past the last block, or else block
    /// 18, where the number of 0 bits is not `free_blocks`. The only other error is want of memory.
    pub fn read(
        alloc: Global,
        bitmaps: &[Block],
        blocks: u64,
        free_blocks: u64,
    ) -> Result<SpaceMap, SpaceFault>
        requires least { 64 ≤ blocks }
        requires most { blocks ≤ 1048576 }
        requires each { length bitmaps.now ≡ bitmap_count blocks }
        ensures sound { OnOk result (bitmaps_fault blocks free_blocks bitmaps.now ≡ None) }
        ensures told { IfOk result (λ s. s ≡ told_space blocks bitmaps.now) }
        ensures fault { IfErr result (IsReadFault (bitmaps_fault blocks free_blocks bitmaps.now)) }
    {
        if let Some(block) = find_fault(bitmaps, blocks, free_blocks) {
            return Err(SpaceFault::Bitmap {
                block: BlockNo(block),
            });
        }
        let marked = read_marks(alloc, bitmaps, blocks)?;
        let mut taken = Taken::new(alloc, blocks)?;
        take_marked(&mut taken, &marked);
        Ok(SpaceMap {
            blocks,
            marked,
            placed: Bits::new(alloc, blocks)?,
            held: Vec::new(alloc),
            deferred: Vec::new(alloc),
            claimed: Bits::new(alloc, blocks)?,
            twice: Bits::new(alloc, blocks)?,
            taken,
            ledger: Ledger::new(alloc, bitmaps.len() as u64),
        })
    }

    /// What holds of every space. It does nothing.
    pub fn lawful(&self)
        ensures { IsLawful self.now }
    {
        let _ = &self.blocks;
        self.ledger.lawful();
    }

    /// Sets an atom's number of cells, and of those without a block, where as many blocks are free as that takes
    /// besides what the atom takes up already.
    pub fn charge(&mut self, atom: AtomNo, cells: u64, fresh: u64) -> Result<(), Short>
        requires cells { cells < 2 ^ 32 }
        requires fresh { fresh < 2 ^ 32 }
        requires open { is_sealed self.old.sealed atom ≡ false }
        requires room { 1 ≤ self.old.spare }
        ensures ok { OnOk result (need_at self.old atom cells fresh ≤ free_of self.old) }
        ensures charged { OnOk result (self.new ≡ charged self.old atom cells fresh) }
        ensures short { IfErr result (λ e. (e.free < e.need) × (e.need ≡ need_at self.old atom cells fresh) × (e.free ≡ free_of self.old)) }
        ensures stays { OnErr result (self.new ≡ used_up self.old) }
    {
        let unused = self.taken.clear();
        self.ledger.charge(unused, atom, cells, fresh)
    }

    /// Places the first unused block from `near` on, or else the first unused one. `None` exactly where no block is
    /// unused. A fixed block never is.
    pub fn place(&mut self, near: BlockNo) -> Option<BlockNo>
        ensures found { IfSome result (λ b. IsNextClear (is_taken self.old) self.old.block_count near.0 b.0) }
        ensures free { IfSome result (λ b. is_fixed self.old.block_count b.0 ≡ false) }
        ensures placed { IfSome result (λ b. self.new ≡ with_placed self.old b.0) }
        ensures none { IfNone result (IsFull (is_taken self.old) self.old.block_count 0) }
        ensures stays { IfNone result (self.new ≡ self.old) }
    {
        let block = self.taken.next_around(near.0)?;
        self.placed.put(block);
        self.taken.take(block);
        Some(BlockNo(block))
    }

    /// Holds the block that `place` would place, for an atom's log. It is marked in no bitmap.
    pub fn hold(&mut self, atom: AtomNo, near: BlockNo) -> Option<BlockNo>
        requires { 1 ≤ self.old.spare }
        ensures found { IfSome result (λ b. IsNextClear (is_taken self.old) self.old.block_count near.0 b.0) }
        ensures free { IfSome result (λ b. is_fixed self.old.block_count b.0 ≡ false) }
        ensures held { IfSome result (λ b. self.new ≡ with_held self.old atom b) }
        ensures none { IfNone result (IsFull (is_taken self.old) self.old.block_count 0) }
        ensures stays { IfNone result (self.new ≡ used_up self.old) }
    {
        let Some(number) = self.taken.next_around(near.0) else {
            self.ledger.use_up();
            return None;
        };
        let block = BlockNo(number);
        add(&mut self.held, Claim { atom, block });
        self.claimed.put(number);
        self.taken.take(number);
        self.ledger.open(atom);
        Some(block)
    }

    /// The first unused block from a number on.
    pub fn next_unused(&self, from: BlockNo) -> Option<BlockNo>
        ensures some { IfSome result (λ b. IsFirstClear (is_taken self.now) self.now.block_count from.0 b.0) }
        ensures free { IfSome result (λ b. is_fixed self.now.block_count b.0 ≡ false) }
        ensures none { IfNone result (IsFull (is_taken self.now) self.now.block_count from.0) }
    {
        let block = self.taken.next(from.0)?;
        Some(BlockNo(block))
    }

    /// Defers a block: it becomes unused when the atom settles.
    pub fn defer(&mut self, atom: AtomNo, block: BlockNo)
        requires within { block.0 < self.old.block_count }
        requires room { 1 ≤ self.old.spare }
        ensures { self.new ≡ with_deferred self.old atom block }
    {
        add(&mut self.deferred, Claim { atom, block });
        claim_again(&self.claimed, &mut self.twice, block.0);
        self.claimed.put(block.0);
        self.taken.take(block.0);
        self.ledger.open(atom);
    }

    /// Adds the numbers and the deferred blocks of `gone` to those of `kept`; `gone` has none from then on.
    pub fn merge(&mut self, kept: AtomNo, gone: AtomNo)
        requires two { kept.0 ≢ gone.0 }
        requires kept_open { is_sealed self.old.sealed kept ≡ false }
        requires gone_open { is_sealed self.old.sealed gone ≡ false }
        ensures { self.new ≡ merged self.old kept gone }
    {
        rename(self.deferred.as_mut_slice(), kept, gone);
        self.ledger.merge(kept, gone);
    }

    /// Seals an atom: its numbers are 0 from then on.
    pub fn seal(&mut self, atom: AtomNo)
        ensures { self.new ≡ sealed_in self.old atom }
    {
        self.ledger.seal(atom);
    }

    /// Settles an atom: its held and its deferred blocks become unused, and the placed ones are marked. A fixed block
    /// stays marked. An account that the atom has, as one that was never sealed may, goes.
    pub fn settle(&mut self, atom: AtomNo)
        ensures { self.new ≡ settled self.old atom }
    {
        settle_marks(
            &mut self.marked,
            &mut self.placed,
            self.deferred.as_slice(),
            atom,
        );
        let held = self.held.as_slice();
        let deferred = self.deferred.as_slice();
        unclaim(&mut self.claimed, &self.twice, held, deferred, atom);
        give_back(&mut self.taken, &self.marked, &self.claimed, held, atom);
        give_back(&mut self.taken, &self.marked, &self.claimed, deferred, atom);
        drop_claims(&mut self.held, atom);
        drop_claims(&mut self.deferred, atom);
        self.ledger.settle(atom);
    }

    /// Writes bitmap `n` as the commit of a sealed atom leaves it. A bit is 1 where its block is marked or placed and is
    /// not deferred for that atom or for one that was sealed before it; bits of fixed blocks and of numbers past the last
    /// block are 1, and the four bytes in front are 0. For an atom that is not sealed, all sealed ones count as sealed
    /// before it.
    #[tactic(auto, using(r4_base::proofs::Lent::refilled_is))]
    pub fn bitmap(&self, n: u64, atom: AtomNo, into: &mut Block)
        requires { n < bitmap_count self.now.block_count }
        ensures bits { (i : ℕ) → i < 32736 → is_used into.new i ≡ is_marked_by self.now atom (n * 32736 + i) }
        ensures front { take 4 into.new ≡ replicate 4 0 }
        ensures whole { length into.new ≡ 4096 }
    {
        write_bitmap(
            into.bytes_mut(),
            n,
            &self.marked,
            &self.placed,
            self.deferred.as_slice(),
            self.ledger.sealed(),
            atom,
        );
    }

    /// Makes room for at least so many calls of `charge`, `hold` and `defer`. The only error is want of memory.
    pub fn room(&mut self, alloc: Global, calls: u64) -> Result<(), Memory>
        ensures ok { OnOk result (self.new ≡ with_room self.old calls) }
        ensures err { OnErr result (self.new ≡ self.old) }
    {
        let _ = alloc;
        self.held.reserve(calls as usize)?;
        self.deferred.reserve(calls as usize)?;
        self.ledger.reserve(calls)
    }

    /// The same space, with the same room. The only error is want of memory.
    pub fn copy(&self, alloc: Global) -> Result<SpaceMap, Memory>
        ensures { IfOk result (λ s. s ≡ self.now) }
    {
        let spare = self.ledger.spare();
        Ok(SpaceMap {
            blocks: self.blocks,
            marked: self.marked.copy(alloc)?,
            placed: self.placed.copy(alloc)?,
            held: copied(alloc, self.held.as_slice(), spare)?,
            deferred: copied(alloc, self.deferred.as_slice(), spare)?,
            claimed: self.claimed.copy(alloc)?,
            twice: self.twice.copy(alloc)?,
            taken: self.taken.copy(alloc)?,
            ledger: self.ledger.copy(alloc)?,
        })
    }

    /// Whether a block is used: marked, placed, held or deferred. A number past the last block is none of them.
    pub fn is_used(&self, block: BlockNo) -> bool
        ensures { result ≡ is_taken self.now block.0 }
    {
        block.0 < self.blocks && self.taken.has(block.0)
    }

    /// For how many calls of `charge`, `hold` and `defer` there is room.
    pub fn spare(&self) -> u64
        ensures { result ≡ self.now.spare }
    {
        self.ledger.spare()
    }

    /// How many blocks are free: the unused ones, less what the open atoms take up, and 0 where that is negative.
    pub fn free(&self) -> u64
        ensures { result ≡ free_of self.now }
    {
        self.taken.clear().saturating_sub(self.ledger.owed())
    }
}
