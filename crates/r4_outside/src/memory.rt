//! A device in memory, with a record of its writes and good syncs or without.

ghost use Rattle.std.specs.Prelude.{◌≡◌, ◌<◌, ◌≤◌, List, [], ℕ, Bool, IsTrue, true, false, reverse, cond, length, replicate, vec_len, slice_set, ◌∷◌, ◌++◌, IfOk, OnOk, OnErr};
ghost use Rattle.r4_base.specs.Image.{Image, IsBlock, block_at};
ghost use Rattle.r4_outside.specs.Device.{HasSectors, IsQuiet, TellsReads, TellsCrashes, Leaves, IsAs};
ghost use Rattle.r4_outside.specs.Crash.{IsPicked, IsRedone, mask_of, next_number, number_after};
ghost use Rattle.r4_outside.specs.Record.{IsWhole, image_after, is_till};

use crate::failing::{counted, missed};
use crate::sectors::mix;
use crate::{Device, Failed};
use r4_base::{Block, BlockNo, Memory};
use std::alloc::Global;

/// A write, or a sync that went well, with the clock after it.
#[derive(Drop)]
pub enum Call {
    Wrote {
        moment: u64,
        at: usize,
        block: Block,
    },
    Synced {
        moment: u64,
    },
}

/// Blocks in memory. It may keep a record of its writes and good syncs, and then tells what a crash leaves.
#[derive(Drop)]
pub struct MemoryDevice {
    alloc: Global,
    blocks: Vec<Block>,
    keeps: bool,
    start: Vec<Block>,
    calls: Vec<Call>,
    fails: Vec<u64>,
    made: u64,
    clock: u64,
    faults: u64,

    // The blocks are what the record says.
    ghost agrees: { cond keeps blocks.items [] ≡ image_after start.items (reverse calls.items) },

    // No call of the record is later than now.
    ghost till: { is_till clock (reverse calls.items) ≡ true },

    ghost whole: { IsWhole blocks.items },

    ghost began_whole: { IsWhole start.items },
}

impl MemoryDevice {
    ghost use Rattle.r4_outside.specs.Memory.{memory_image, memory_state, memory_picked, memory_fails, memory_calls, memory_keeps, IsFresh};

    /// A device of that many blocks of zeros that keeps a record of all calls and tells everything. A `write` or a
    /// `sync` that finds no memory for the record fails, and leaves no sector of its own. The only error is want of
    /// memory.
    pub fn new(alloc: Global, blocks: u64) -> Result<MemoryDevice, Memory>
        ensures zeros { IfOk result (λ d. memory_image d ≡ replicate blocks (replicate 4096 0)) }
        ensures fresh { IfOk result IsFresh }
        ensures keeps { IfOk result (λ d. memory_keeps d ≡ true) }
        ensures quiet { IfOk result (λ d. IsQuiet (memory_state d)) }
    {
        Ok(MemoryDevice {
            alloc,
            blocks: zeros(alloc, blocks)?,
            keeps: true,
            start: zeros(alloc, blocks)?,
            calls: Vec::new(alloc),
            fails: Vec::new(alloc),
            made: 0,
            clock: 0,
            faults: 0,
        })
    }

    /// A device of that many blocks of zeros that keeps no record and does not tell what a crash leaves. It takes no
    /// memory afterwards but in `fail`. The only error is want of memory.
    pub fn plain(alloc: Global, blocks: u64) -> Result<MemoryDevice, Memory>
        ensures zeros { IfOk result (λ d. memory_image d ≡ replicate blocks (replicate 4096 0)) }
        ensures fresh { IfOk result IsFresh }
        ensures keeps { IfOk result (λ d. memory_keeps d ≡ false) }
        ensures tells { IfOk result (λ d. TellsReads (memory_state d)) }
        ensures silent { IfOk result (λ d. (m b s : ℕ) (x : List ℕ) → (memory_state d).may_hold m b s x → ⊥) }
    {
        Ok(MemoryDevice {
            alloc,
            blocks: zeros(alloc, blocks)?,
            keeps: false,
            start: Vec::new(alloc),
            calls: Vec::new(alloc),
            fails: Vec::new(alloc),
            made: 0,
            clock: 0,
            faults: 0,
        })
    }

    /// The call of that number is to fail, counting reads, writes and syncs from 1. A write that fails so is made all
    /// the same. The only error is want of memory.
    pub fn fail(&mut self, alloc: Global, call: u64) -> Result<(), Memory>
        ensures same { IsAs (memory_state self.old) (memory_state self.new) }
        ensures noted { OnOk result (memory_fails self.new ≡ memory_fails self.old ++ call ∷ []) }
        ensures keeps { memory_keeps self.new ≡ memory_keeps self.old }
        ensures calls { memory_calls self.new ≡ memory_calls self.old }
        ensures err { OnErr result (memory_fails self.new ≡ memory_fails self.old) }
    {
        let _ = alloc;
        self.fails.push(call)?;
        Ok(())
    }

    /// One of the images that a crash at a moment of the clock may leave, as a device that keeps a record from there on.
    /// The device has to tell what a crash leaves. `pick` says which image it is: each write and each good sync of the
    /// record has a number, which is the one before it, at first `pick`, times 6364136223846793005 plus
    /// 1442695040888963407, modulo 2^64. The upper eight bits of a write's number say which of its sectors are left, the
    /// lowest of them whether sector 0 is. A good sync up to the moment leaves all that came before it. The only error is
    /// want of memory.
    pub fn crash(&self, alloc: Global, moment: u64, pick: u64) -> Result<MemoryDevice, Memory>
        requires { TellsCrashes (memory_state self.now) }
        ensures leaves { IfOk result (λ d. Leaves (memory_state self.now) moment (memory_image d)) }
        ensures picked { IfOk result (λ d. HasSectors (length (memory_image self.now)) (memory_picked self.now moment pick) (memory_image d)) }
        ensures fresh { IfOk result IsFresh }
        ensures keeps { IfOk result (λ d. memory_keeps d ≡ true) }
        ensures quiet { IfOk result (λ d. IsQuiet (memory_state d)) }
    {
        let blocks = crashed(alloc, &self.start, &self.calls, moment, pick)?;
        let start = copies(alloc, &blocks)?;
        Ok(MemoryDevice {
            alloc,
            blocks,
            keeps: true,
            start,
            calls: Vec::new(alloc),
            fails: Vec::new(alloc),
            made: 0,
            clock: 0,
            faults: 0,
        })
    }

    /// Shows block `at`, which is below the number of blocks.
    pub fn block(&self, at: BlockNo) -> &Block
        requires { at.0 < length (memory_image self.now) }
        ensures { result.now ≡ block_at (memory_image self.now) at.0 }
    {
        &self.blocks[at.0 as usize]
    }
}

// Blocks of zeros.
fn zeros(alloc: Global, count: u64) -> Result<Vec<Block>, Memory>
    ensures items { IfOk result (λ v. v.items ≡ replicate count (replicate 4096 0)) }
    ensures whole { IfOk result (λ v. IsWhole v.items) }
{
    let mut blocks = Vec::new(alloc);
    for i in 0..count {
        blocks.push(Block::zeroed(alloc)?)?;
    }
    Ok(blocks)
}

// The same blocks.
fn copies(alloc: Global, blocks: &[Block]) -> Result<Vec<Block>, Memory>
    ensures { IfOk result (λ v. v.items ≡ blocks.now) }
{
    let mut copied = Vec::new(alloc);
    for block in blocks {
        copied.push(block.copy(alloc)?)?;
    }
    Ok(copied)
}

// Which blocks a crash leaves after these calls.
fn crashed(
    alloc: Global,
    start: &[Block],
    calls: &[Call],
    moment: u64,
    pick: u64,
) -> Result<Vec<Block>, Memory>
    requires { IsWhole start.now }
    ensures { IfOk result (λ v. IsPicked start.now (reverse calls.now) moment pick v.items) }
{
    let mut full = copies(alloc, start)?;
    let mut left = copies(alloc, start)?;
    let mut number = pick;
    for call in calls {
        number = next_number(number);
        redo(
            alloc,
            &mut full,
            &mut left,
            call,
            moment,
            (number >> 56) as u8,
        )?;
    }
    Ok(left)
}

// The number of the next call.
fn next_number(number: u64) -> u64
    ensures { result ≡ next_number number }
{
    number
        .wrapping_mul(6364136223846793005)
        .wrapping_add(1442695040888963407)
}

// One call more: of a write by then the sectors whose bits are set are left.
fn redo(
    alloc: Global,
    full: &mut Vec<Block>,
    left: &mut Vec<Block>,
    call: &Call,
    moment: u64,
    mask: u8,
) -> Result<(), Memory>
    ensures { (start : List (List ℕ)) (calls : List Call) (pick : ℕ) → mask ≡ mask_of pick (length calls) → IsRedone start calls moment pick full.old.items left.old.items
        → OnOk result (IsRedone start (call.now ∷ calls) moment pick full.new.items left.new.items) }
{
    match call {
        Call::Wrote {
            moment: made,
            at,
            block,
        } => {
            put_block(full, *at, block);
            if *made > moment || *at >= left.len() {
                return Ok(());
            }
            let torn = &mut left[*at];
            mix(torn, block, mask);
            Ok(())
        }
        Call::Synced { moment: made } => {
            if *made > moment {
                return Ok(());
            }
            *left = copies(alloc, full)?;
            Ok(())
        }
    }
}

// Takes over a block at a place, where there is one.
#[tactic(auto, using(r4_base::proofs::Lent::refilled_is))]
fn put_block(blocks: &mut Vec<Block>, at: usize, from: &Block)
    ensures set { blocks.new.items ≡ slice_set blocks.old.items at from.now }
    ensures whole { IsBlock from.now }
{
    let bytes = from.bytes();
    if at >= blocks.len() {
        return;
    }
    let block = &mut blocks[at];
    block.bytes_mut().copy_from_slice(bytes);
}

impl Device for MemoryDevice {
    ghost use Rattle.std.specs.Prelude.{◌↔◌, ◌⊎◌, ◌≡◌, ◌<◌, Contains, IsErr, IsOk, OnErr};
    ghost use Rattle.r4_outside.specs.Device.{Counts, Reads, Writes, Syncs, next};
    ghost use Rattle.r4_outside.specs.Memory.{memory_state, memory_calls, IsIdle, IsPlanned, IsStarved, KeepsPlan, MakesWrite};

    ghost state = { memory_state };

    // It fails never, and counts as no call.
    fn blocks(&mut self) -> Result<u64, Failed>
        ensures counts { Counts (memory_state self.old) result (memory_state self.new) }
        ensures ok { IsOk result }
        ensures same { IsAs (memory_state self.old) (memory_state self.new) }
        ensures plan { KeepsPlan self.old self.new }
        ensures calls { memory_calls self.new ≡ memory_calls self.old }
    {
        Ok(self.blocks.len() as u64)
    }

    fn read(&mut self, at: BlockNo, into: &mut Block) -> Result<(), Failed>
        requires { at.0 < (memory_state self.old).blocks }
        ensures reads { Reads at.0 into.new (memory_state self.old) result (memory_state self.new) }
        ensures fails { IsErr result ↔ IsPlanned self.old }
        ensures plan { KeepsPlan self.old self.new }
        ensures calls { memory_calls self.new ≡ next (memory_calls self.old) }
    {
        if counted(&self.fails, &mut self.made) {
            return Err(missed(&mut self.faults));
        }
        into.copy_from(&self.blocks[at.0 as usize]);
        Ok(())
    }

    fn write(&mut self, at: BlockNo, from: &Block) -> Result<(), Failed>
        requires { at.0 < (memory_state self.old).blocks }
        ensures writes { Writes at.0 from.now (memory_state self.old) result (memory_state self.new) }
        ensures fails { IsPlanned self.old → IsErr result }

        // A write that was to fail is made all the same; else one that fails leaves nothing.
        ensures why { OnErr result (IsPlanned self.old ⊎ (IsStarved self.old × IsIdle (memory_state self.old) (memory_state self.new))) }
        ensures made { OnErr result (MakesWrite at.0 from.now self.old self.new
            ⊎ (IsStarved self.old × IsIdle (memory_state self.old) (memory_state self.new))) }
        ensures plan { KeepsPlan self.old self.new }
        ensures calls { memory_calls self.new ≡ next (memory_calls self.old) }
    {
        let failing = counted(&self.fails, &mut self.made);
        if self.clock == u64::MAX {
            return Err(missed(&mut self.faults));
        }
        self.clock += 1;
        let place = at.0 as usize;
        let Ok(()) = put(
            self.alloc,
            self.keeps,
            &mut self.blocks,
            &mut self.calls,
            self.clock,
            place,
            from,
        ) else {
            return Err(missed(&mut self.faults));
        };
        if failing {
            return Err(missed(&mut self.faults));
        }
        Ok(())
    }

    fn sync(&mut self) -> Result<(), Failed>
        ensures syncs { Syncs (memory_state self.old) result (memory_state self.new) }
        ensures fails { IsPlanned self.old → IsErr result }
        ensures why { OnErr result (IsPlanned self.old ⊎ IsStarved self.old) }
        ensures plan { KeepsPlan self.old self.new }
        ensures calls { memory_calls self.new ≡ next (memory_calls self.old) }
    {
        let lost = counted(&self.fails, &mut self.made);
        if self.clock == u64::MAX {
            return Err(missed(&mut self.faults));
        }
        self.clock += 1;
        if lost {
            return Err(missed(&mut self.faults));
        }
        let Ok(()) = note_sync(self.keeps, &mut self.calls, self.clock) else {
            return Err(missed(&mut self.faults));
        };
        Ok(())
    }

    fn clock(&self) -> u64 {
        self.clock
    }

    fn faults(&self) -> u64 {
        self.faults
    }
}

// Writes a block, and first notes the write where a record is kept. At `Err` nothing is changed.
fn put(
    alloc: Global,
    keeps: bool,
    blocks: &mut Vec<Block>,
    calls: &mut Vec<Call>,
    moment: u64,
    at: usize,
    from: &Block,
) -> Result<(), Memory>
    requires { at < vec_len blocks.old }
    ensures ok { OnOk result (blocks.new.items ≡ slice_set blocks.old.items at from.now) }
    ensures whole { OnOk result (IsBlock from.now) }
    ensures noted { OnOk result (reverse calls.new.items ≡ cond keeps (Call.Wrote moment at from.now ∷ reverse calls.old.items) (reverse calls.old.items)) }
    ensures err { OnErr result ((blocks.new.items ≡ blocks.old.items) × (calls.new.items ≡ calls.old.items)) }
    ensures only { OnErr result (IsTrue keeps) }
{
    if keeps {
        note_write(alloc, calls, moment, at, from)?;
    }
    put_block(blocks, at, from);
    Ok(())
}

// Notes a write. At `Err` the record is as it was.
fn note_write(
    alloc: Global,
    calls: &mut Vec<Call>,
    moment: u64,
    at: usize,
    from: &Block,
) -> Result<(), Memory>
    ensures noted { OnOk result (reverse calls.new.items ≡ Call.Wrote moment at from.now ∷ reverse calls.old.items) }
    ensures err { OnErr result (calls.new.items ≡ calls.old.items) }
{
    let block = from.copy(alloc)?;
    calls.push(Call::Wrote { moment, at, block })?;
    Ok(())
}

// Notes a good sync where a record is kept. At `Err` the record is as it was.
fn note_sync(keeps: bool, calls: &mut Vec<Call>, moment: u64) -> Result<(), Memory>
    ensures noted { OnOk result (reverse calls.new.items ≡ cond keeps (Call.Synced moment ∷ reverse calls.old.items) (reverse calls.old.items)) }
    ensures err { OnErr result (calls.new.items ≡ calls.old.items) }
    ensures only { OnErr result (IsTrue keeps) }
{
    if keeps {
        calls.push(Call::Synced { moment })?;
    }
    Ok(())
}
