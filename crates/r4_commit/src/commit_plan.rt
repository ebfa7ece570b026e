//! A commit under way.

ghost use Rattle.std.specs.Prelude.{ℕ, ◌≡◌, ◌≢◌, ◌+◌, ◌^◌, ◌<◌, ◌≤◌, OnOk, IfOk, List, MatchBool, map, true};
ghost use Rattle.r4_base.specs.Image.{Image};
ghost use Rattle.r4_base.specs.Chain.{Txn};
ghost use Rattle.r4_base.specs.Value.{Content};
ghost use Rattle.r4_base.specs.Volume.{HasVolume, Needs};
ghost use Rattle.r4_base.specs.declared.superblock.Super40.{Super40};
ghost use Rattle.r4_base.specs.declared.things.AtomNo.{AtomNo};
ghost use Rattle.r4_base.specs.declared.things.BlockNo.{BlockNo};
ghost use Rattle.r4_place.specs.r4_cell.Seen.{CellSeen};
ghost use Rattle.r4_space.specs.Space.{Space};
ghost use Rattle.r4_place.specs.declared.placed.Placed.{Placed};
ghost use Rattle.r4_commit.specs.Planned.{IsPlanFor};
ghost use Rattle.r4_commit.specs.Plannable.{IsPlannable, is_spoken_for};
ghost use Rattle.r4_commit.specs.Volumes.{VolumeByPart};
ghost use Rattle.r4_outside.specs.Device.{Goes, HasCause, Spares, LeavesOnly, Rose};
ghost use Rattle.r4_wander.specs.Parts.{FallsOn};
ghost use Rattle.r4_wander.specs.Torn.{IsTarget, targets};
ghost use Rattle.r4_wander.specs.LogPlan.{first};
ghost use Rattle.r4_wander.specs.Needed.{SparesNeeded};
ghost use Rattle.r4_wander.specs.Safe.{ByPart};
ghost use Rattle.r4_wander.specs.Progress.{under_way, FitOn, IsNext, stage_at, calls_left, ReadsAs, Stands, Commits};
ghost use Rattle.r4_wander.specs.declared.plan.LogPlan.{LogPlan};

use r4_base::{BlockNo, Memory, Super40};
use r4_outside::{Device, Failed};
use r4_wander::{Stage, Writer};
use std::alloc::Global;
use std::marker::Model;

/// The commit of an atom under way. Contracts see its writer's progress: what is written in each of its four parts, the
/// part that is under way, and how many of its writes are made; and the head and the superblock that it writes
/// (docs/commit.md, "Steps").
#[derive(Drop)]
pub struct CommitPlan {
    pub(crate) writer: Writer,
    pub(crate) head: BlockNo,
    pub(crate) super40: Super40,
}

impl Model for CommitPlan {
    ghost use Rattle.r4_commit.specs.Planned.{CommitSeen};

    ghost Value = { CommitSeen };

    ghost view = { λ p. record { work = p.writer; head = p.head; super40 = p.super40 } };
}

impl CommitPlan {
    /// The head of the commit's log, which the journal header names once it is written.
    pub fn head(&self) -> BlockNo
        ensures { result ≡ self.now.head }
    {
        self.head
    }

    /// The superblock that the commit writes.
    pub fn super40(&self) -> &Super40
        ensures { result.now ≡ self.now.super40 }
    {
        &self.super40
    }

    /// Whether a write of the commit falls on a block, in whichever part: made or not. No memory.
    pub fn falls_on(&self, block: BlockNo) -> bool
        ensures { MatchBool result (FallsOn self.now.work.plan block.0)
            (FallsOn self.now.work.plan block.0 → ⊥) }
    {
        self.writer.falls_on(block)
    }

    /// The blocks on which the writes of the first part fall, those of cells that get a block and those of the log, in
    /// the order of the writes. The only error is want of memory.
    pub fn first_blocks(&self, alloc: Global) -> Result<Vec<BlockNo>, Memory>
        ensures { IfOk result (λ v. map (λ b. b.0) v.items ≡ targets self.now.work.plan.first) }
    {
        self.writer.first_blocks(alloc)
    }
}

/// Makes from one to four writes and syncs, and no other device call: up to four writes of the part that is under way
/// and, where all its writes are made within fewer than four calls, its sync, with which the step ends. It takes no
/// memory. `Ok` says how far the commit is; a stage may be answered by several steps. `Failed` comes only where the
/// device's count of faults rose in this step, and the plan is of no use afterwards. Condition: no step has answered
/// `Footed` or `Failed`; the device has at least 64 blocks, and every block that the plan writes is below their number
/// (docs/commit.md, "Steps").
pub fn step<D: Device>(plan: &mut CommitPlan, dev: &mut D) -> Result<Stage, Failed>
    requires not_footed { plan.old.work.part < 4 }
    requires fits { FitOn (D.state dev.old).blocks plan.old.work.plan }
    ensures goes { Goes (D.state dev.old) (D.state dev.new) }
    ensures cause { HasCause (D.state dev.old) result (D.state dev.new) }
    ensures plan { plan.new.work.plan ≡ plan.old.work.plan }
    ensures told { (plan.new.head ≡ plan.old.head) × (plan.new.super40 ≡ plan.old.super40) }

    // It makes four writes of its part, or those that are left of it and the sync.
    ensures next { OnOk result (IsNext plan.old.work plan.new.work) }
    ensures stage { IfOk result (λ stage. stage ≡ stage_at plan.new.work.part plan.new.work.done) }
    ensures some { Rose (D.state dev.old).clock (D.state dev.new).clock }
    ensures clock { OnOk result (((D.state dev.old).clock + 1 ≤ (D.state dev.new).clock) × ((D.state dev.new).clock ≤ (D.state dev.old).clock + 4) × ((D.state dev.new).clock < 2 ^ 64)) }
    ensures few { (D.state dev.new).clock ≤ (D.state dev.old).clock + 4 }

    // Each call of the commit is made once.
    ensures calls { OnOk result ((D.state dev.new).clock + calls_left plan.new.work ≡ (D.state dev.old).clock + calls_left plan.old.work) }

    // No write falls on another block than those of the part.
    ensures spares { Spares (IsTarget (under_way plan.old.work)) (D.state dev.old) (D.state dev.new) }

    // Where the device stands as the plan says, it does so afterwards.
    ensures stands { (base : Image) → Stands plan.old.work base (D.state dev.old) → OnOk result (Stands plan.new.work base (D.state dev.new)) }

    // Where reading gives what the plan says, it does so afterwards, also on a device that tells reading alone.
    ensures reads { (base : Image) → ReadsAs plan.old.work base (D.state dev.old) → OnOk result (ReadsAs plan.new.work base (D.state dev.new)) }

    // A crash at any moment leaves what settles as without the commit or as with it, by the part.
    ensures settles { (n : ℕ) (base : Image) (chain : List Txn) (p : LogPlan) → Commits plan.old.work n base chain p → Stands plan.old.work base (D.state dev.old)
        → LeavesOnly (D.state dev.old) (D.state dev.new) (ByPart n base chain p plan.old.work.part) }

    // In words of volumes: what a crash leaves has the old one or the new one, where each block that the old one needs is spoken for.
    ensures volumes { (n : ℕ) (base : Image) (chain : List Txn) (s : Space) (atom : AtomNo) (cells : List CellSeen) (answers : List Placed) (next : Super40) (last : BlockNo) (p : LogPlan) (m : Content) (v : HasVolume n base m)
        → IsPlanFor s atom cells answers next last p → IsPlannable n base chain s cells answers next last → ((b : ℕ) → Needs v b → is_spoken_for s b ≡ true)
        → Commits plan.old.work n base chain p → Stands plan.old.work base (D.state dev.old) → LeavesOnly (D.state dev.old) (D.state dev.new) (VolumeByPart n base chain p m plan.old.work.part) }

    // But for the homes, no write falls on a block that an image needs which a crash at any moment of the step may leave,
    // where the first part's blocks were needed by none.
    ensures needed { (n : ℕ) (base : Image) (chain : List Txn) (p : LogPlan) (m : Content) (v : HasVolume n base m) → Commits plan.old.work n base chain p → Stands plan.old.work base (D.state dev.old)
        → plan.old.work.part ≢ 2 → ((b : ℕ) → IsTarget (first p) b → Needs v b → ⊥) → SparesNeeded (D.state dev.old) (D.state dev.new) }
{
    plan.writer.step(dev)
}
