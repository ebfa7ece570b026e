//! The writer of a commit, and its steps.

ghost use Rattle.std.specs.Prelude.{ℕ, ◌≡◌, ◌≢◌, ◌↔◌, ◌+◌, ◌^◌, ◌<◌, ◌≤◌, length, OnOk, IfOk, IfSome, IsTrue};
ghost use Rattle.std.specs.Prelude.{List, MatchBool, map};
ghost use Rattle.std.specs.List.Sorted.{IsNonDecreasingBy};
ghost use Rattle.r4_base.specs.Image.{Image};
ghost use Rattle.r4_base.specs.Chain.{Txn};
ghost use Rattle.r4_base.specs.Value.{Content};
ghost use Rattle.r4_base.specs.Volume.{HasVolume, Needs};
ghost use Rattle.r4_outside.specs.Device.{Goes, HasCause, Writes, Spares, LeavesOnly, Rose, next};
ghost use Rattle.r4_wander.specs.Torn.{IsTarget, IsTornBy, targets};
ghost use Rattle.r4_wander.specs.Parts.{base_of, FallsOn, IsOrderOf};
ghost use Rattle.r4_wander.specs.LogPlan.{first, parts_of, CanBeWritten};
ghost use Rattle.r4_wander.specs.Needed.{SparesNeeded};
ghost use Rattle.r4_wander.specs.Safe.{IsEncoded, ByPart};
ghost use Rattle.r4_wander.specs.Progress.{under_way, write_at, FitOn, IsNextCall, IsNext, stage_at, calls_left, Stands, ReadsAs, Commits};
ghost use Rattle.r4_wander.specs.declared.plan.LogPlan.{LogPlan};

use crate::entry::Entry;
use crate::making::{
    in_order, make_first, make_footer, make_header, make_homes, make_log, make_placed, share,
};
use crate::plan::LogPlan;
use crate::stage::Stage;
use r4_base::{Block, BlockNo, FOOTER_BLOCK, HEADER_BLOCK, Memory};
use r4_outside::{Device, Failed};
use std::alloc::Global;
use std::marker::Model;

/// A commit under way: what is written in each of its four parts, the part that is under way, and how many of its writes
/// are made (docs/commit.md, "Steps").
#[derive(Drop)]
pub struct Writer {
    pub(crate) first: Vec<Entry>,
    pub(crate) header: Block,
    pub(crate) homes: Vec<Entry>,
    pub(crate) footer: Block,
    pub(crate) part: u64,
    pub(crate) done: usize,
}

impl Model for Writer {
    ghost use Rattle.std.specs.Prelude.{◌≤◌, length};
    ghost use Rattle.std.specs.List.Sorted.{IsNonDecreasingBy};
    ghost use Rattle.r4_wander.specs.Progress.{Progress, under_way};

    ghost Value = { Progress };

    ghost view = { λ w. record { plan = record { first = w.first.items; header = w.header; homes = w.homes.items; footer = w.footer }; part = w.part; done = w.done } };

    ghost invariant = { λ w. (w.done ≤ length (under_way (record { plan = record { first = w.first.items; header = w.header; homes = w.homes.items; footer = w.footer }; part = w.part; done = w.done })))
        × IsNonDecreasingBy (λ v. v.0) w.first.items
        × IsNonDecreasingBy (λ v. v.0) w.homes.items };
}

impl Writer {
    /// The writer of a plan, at its beginning. It takes all the memory of the commit. Its parts are exactly the writes of the
    /// plan, those of the first part and the homes each in rising order of blocks, and what they write reads back as the
    /// plan's transaction. The only error is want of memory. Condition: there is one record for each 254 pairs or part of
    /// them, there are fewer than 2^32 - 1 records, and no original is 0 (docs/commit.md, "Order").
    pub fn new(alloc: Global, plan: LogPlan) -> Result<Writer, Memory>
        requires { CanBeWritten plan }
        ensures begun { IfOk result (λ w. (w.part ≡ 0) × (w.done ≡ 0)) }
        ensures parts { IfOk result (λ w. IsOrderOf (parts_of plan) w.plan) }
        ensures encoded { OnOk result (IsEncoded plan) }
    {
        let log = make_log(alloc, &plan)?;
        let header = make_header(alloc, &plan)?;
        let footer = make_footer(alloc, &plan)?;
        let first = make_placed(alloc, &plan)?;
        let shared = share(alloc, plan.wandered)?;
        let homes = make_homes(alloc, &shared)?;
        let first = make_first(first, &shared, log)?;
        Ok(Writer {
            first: in_order(first)?,
            header,
            homes: in_order(homes)?,
            footer,
            part: 0,
            done: 0,
        })
    }

    /// Whether a write of the commit falls on a block, in whichever part: made or not. No memory.
    pub fn falls_on(&self, block: BlockNo) -> bool
        ensures { MatchBool result
            (FallsOn self.now.plan block.0) (FallsOn self.now.plan block.0 → ⊥) }
    {
        if is_among(self.first.as_slice(), block) || is_among(self.homes.as_slice(), block) {
            return true;
        }
        block == HEADER_BLOCK || block == FOOTER_BLOCK
    }

    /// The blocks on which the writes of the first part fall, those of cells that get a block and those of the log, in
    /// the order of the writes. The only error is want of memory.
    pub fn first_blocks(&self, alloc: Global) -> Result<Vec<BlockNo>, Memory>
        ensures { IfOk result (λ v. map (λ b. b.0) v.items ≡ targets self.now.plan.first) }
    {
        let mut blocks = Vec::with_capacity(alloc, self.first.len())?;
        for write in &self.first {
            blocks.push(BlockNo(write.at))?;
        }
        Ok(blocks)
    }

    /// Makes from one to four writes and syncs, and no other device call: up to four writes of the part that is under way
    /// and, where all its writes are made within fewer than four calls, its sync, with which the step ends. It takes no
    /// memory. `Ok` says how far the commit is; a stage may be answered by several steps. `Failed` comes only where the
    /// device's count of faults rose in this step, and the writer is of no use afterwards. Condition: no step has answered
    /// `Footed` or `Failed`; the device has at least 64 blocks, and every block that the plan writes is below their number
    /// (docs/commit.md, "Steps").
    pub fn step<D: Device>(&mut self, dev: &mut D) -> Result<Stage, Failed>
        requires not_footed { self.old.part < 4 }
        requires fits { FitOn (D.state dev.old).blocks self.old.plan }
        ensures goes { Goes (D.state dev.old) (D.state dev.new) }
        ensures cause { HasCause (D.state dev.old) result (D.state dev.new) }
        ensures plan { self.new.plan ≡ self.old.plan }

        // It makes four writes of its part, or those that are left of it and the sync.
        ensures next { OnOk result (IsNext self.old self.new) }
        ensures stage { IfOk result (λ stage. stage ≡ stage_at self.new.part self.new.done) }
        ensures some { Rose (D.state dev.old).clock (D.state dev.new).clock }
        ensures clock { OnOk result (((D.state dev.old).clock + 1 ≤ (D.state dev.new).clock) × ((D.state dev.new).clock ≤ (D.state dev.old).clock + 4) × ((D.state dev.new).clock < 2 ^ 64)) }
        ensures few { (D.state dev.new).clock ≤ (D.state dev.old).clock + 4 }

        // Each call of the commit is made once.
        ensures calls { OnOk result ((D.state dev.new).clock + calls_left self.new ≡ (D.state dev.old).clock + calls_left self.old) }

        // No write falls on another block than those of the part.
        ensures spares { Spares (IsTarget (under_way self.old)) (D.state dev.old) (D.state dev.new) }

        // Where the device stands as the writer says, it does so afterwards.
        ensures stands { (base : Image) → Stands self.old base (D.state dev.old) → OnOk result (Stands self.new base (D.state dev.new)) }

        // Where reading gives what the writer says, it does so afterwards, also on a device that tells reading alone.
        ensures reads { (base : Image) → ReadsAs self.old base (D.state dev.old) → OnOk result (ReadsAs self.new base (D.state dev.new)) }

        // A crash at any moment leaves what settles as without the commit or as with it, by the part.
        ensures settles { (n : ℕ) (base : Image) (chain : List Txn) (p : LogPlan) → Commits self.old n base chain p → Stands self.old base (D.state dev.old)
            → LeavesOnly (D.state dev.old) (D.state dev.new) (ByPart n base chain p self.old.part) }

        // But for the homes, no write falls on a block that an image needs which a crash at any moment of the step may leave,
        // where the first part's blocks were needed by none.
        ensures needed { (n : ℕ) (base : Image) (chain : List Txn) (p : LogPlan) (m : Content) (v : HasVolume n base m) → Commits self.old n base chain p → Stands self.old base (D.state dev.old)
            → self.old.part ≢ 2 → ((b : ℕ) → IsTarget (first p) b → Needs v b → ⊥) → SparesNeeded (D.state dev.old) (D.state dev.new) }
    {
        for _made in 0..4u64 {
            if self.call(dev)? {
                return Ok(self.stage());
            }
        }
        Ok(self.stage())
    }

    /// Makes the next write of the part that is under way, or its sync where all its writes are made; says whether it was
    /// the sync.
    fn call<D: Device>(&mut self, dev: &mut D) -> Result<bool, Failed>
        requires not_done { self.old.part < 4 }
        requires fits { FitOn (D.state dev.old).blocks self.old.plan }
        ensures goes { Goes (D.state dev.old) (D.state dev.new) }
        ensures cause { HasCause (D.state dev.old) result (D.state dev.new) }
        ensures plan { self.new.plan ≡ self.old.plan }
        ensures within { self.old.done ≤ length (under_way self.old) }
        ensures next { IfOk result (λ synced. IsNextCall synced self.old self.new) }
        ensures clock { (D.state dev.new).clock ≡ next (D.state dev.old).clock }
        ensures one { OnOk result ((D.state dev.new).clock ≡ (D.state dev.old).clock + 1) }
        ensures spares { Spares (IsTarget (under_way self.old)) (D.state dev.old) (D.state dev.new) }
        ensures stands { (base : Image) → Stands self.old base (D.state dev.old) → OnOk result (Stands self.new base (D.state dev.new)) }
        ensures reads { (base : Image) → ReadsAs self.old base (D.state dev.old) → OnOk result (ReadsAs self.new base (D.state dev.new)) }
        ensures left { (base : Image) → Stands self.old base (D.state dev.old)
            → LeavesOnly (D.state dev.old) (D.state dev.new) (IsTornBy (under_way self.old) (base_of self.old.plan base self.old.part)) }
    {
        if self.done < self.len() {
            self.write_next(dev)?;
            self.done += 1;
            return Ok(false);
        }
        dev.sync()?;
        self.part += 1;
        self.done = 0;
        Ok(true)
    }

    /// How many writes the part that is under way has.
    fn len(&self) -> usize
        ensures { result ≡ length (under_way self.now) }
    {
        match self.part {
            0 => self.first.len(),
            1 => 1,
            2 => self.homes.len(),
            3 => 1,
            _ => 0,
        }
    }

    /// Makes the next write of the part that is under way.
    fn write_next<D: Device>(&self, dev: &mut D) -> Result<(), Failed>
        requires some { self.now.done < length (under_way self.now) }
        requires fits { FitOn (D.state dev.old).blocks self.now.plan }
        ensures { Writes (write_at (under_way self.now) self.now.done).0 (write_at (under_way self.now) self.now.done).1 (D.state dev.old) result (D.state dev.new) }
    {
        match self.part {
            0 => self.first[self.done].write(dev),
            1 => dev.write(HEADER_BLOCK, &self.header),
            2 => self.homes[self.done].write(dev),
            _ => dev.write(FOOTER_BLOCK, &self.footer),
        }
    }

    fn stage(&self) -> Stage
        ensures { result ≡ stage_at self.now.part self.now.done }
    {
        match self.part {
            0 => Stage::Copies,
            1 => Stage::Logged,
            2 => {
                if self.done == 0 {
                    Stage::Headed
                } else {
                    Stage::Homes
                }
            }
            3 => Stage::Homes,
            _ => Stage::Footed,
        }
    }
}

/// Whether one of these writes, which rise, falls on a block.
fn is_among(writes: &[Entry], block: BlockNo) -> bool
    requires { IsNonDecreasingBy (λ w. w.0) writes.now }
    ensures { IsTrue result ↔ IsTarget writes.now block.0 }
{
    writes
        .binary_search_by_key(&block.0, |write| write.at)
        .is_ok()
}
