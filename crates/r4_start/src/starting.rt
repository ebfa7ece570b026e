//! What a core begins with: the opened image, its space, the turns of a job, and a trace.

ghost use Rattle.std.specs.Prelude.{◌≡◌, ◌≤◌, IfErr, IfOk, IfSome, OnOk, [], count_by};
ghost use Rattle.r4_base.specs.Volume.{root_of};
ghost use Rattle.r4_outside.specs.Device.{Goes, IsQuiet};
ghost use Rattle.r4_replay.specs.Replay.{SettlesAlways};
ghost use Rattle.r4_rooms.specs.r4_durable.Kept.{space_of};
ghost use Rattle.r4_open.specs.Opening.{AreAccepted};
ghost use Rattle.r4_space.specs.Lawful.{IsLawful};
ghost use Rattle.r4_rooms.specs.r4_turns.Turns.{started};
ghost use Rattle.r4_rooms.specs.r4_kept.History.{is_commit, owed};
ghost use Rattle.r4_start.specs.Starting.{HasStarted, IsFound, IsOpenFault};
ghost use Rattle.r4_start.specs.Starting.{fault_of_image, fault_of_log};
ghost use Rattle.r4_rooms.specs.r4_kept.View.{root_seen};
ghost use Rattle.r4_start.specs.declared.fault.OpenWhy.TheVariants.{Device as HasFailed};

use crate::fault::OpenWhy;
use r4_base::{Memory, NodeId, Super40, UNPLACED};
use r4_cell::Root;
use r4_content::Command;
use r4_open::{Opened, Unopened, open_in_place};
use r4_outside::Device;
use r4_replay::{ReplayFault, replay};
use r4_rooms::{Numbers, Turns, Volume};
use r4_script::{Job, Script};
use r4_space::{SpaceFault, SpaceMap};
use r4_trace::Trace;
use std::alloc::{AllocError, Global};

/// What a core is made of, beside its device, and what is empty at its start (docs/core.md,
/// "Opening").
#[derive(Drop)]
pub struct Start {
    pub turns: Turns,
    pub space: SpaceMap,
    pub tree: Root,
    pub numbers: Numbers,
    pub volume: Volume,
    pub trace: Trace,
}

/// Puts the log of a device in place, opens its image, and begins the turns of a job, with room for
/// an entry for each `commit` of it (docs/core.md, "Opening").
///
/// Refused in this order: `Size` outside 64 to 1,048,576 blocks; `Log`, with nothing written;
/// `Image`, once the log was put in place. `Device` comes only where the count of faults rose, and
/// `Memory` where a growth was refused, and with 2^32 scripts or a script of as many commands,
/// which no text spells.
pub fn start_of<D: Device>(alloc: Global, dev: &mut D, job: Job) -> Result<Start, OpenWhy>
    ensures goes { Goes (D.state dev.old) (D.state dev.new) }
    ensures moments { IsQuiet (D.state dev.old)
        → SettlesAlways (D.state dev.old) (D.state dev.new) }
    ensures quiet { IsQuiet (D.state dev.old) → OnOk result (IsQuiet (D.state dev.new)) }
    ensures started { IfOk result (λ s.
        HasStarted (D.state dev.old) (D.state dev.new) job s) }
    ensures refused { IfErr result (λ why.
        IsOpenFault (D.state dev.old) why (D.state dev.new)) }
{
    let found = open_replayed(alloc, dev)?;
    let space = read_space(alloc, &found)?;
    let trace = first_trace(alloc, &job)?;
    let turns = Turns::new(alloc, job)?;
    Ok(Start {
        turns,
        space,
        tree: root_in(&found.super40),
        numbers: Numbers {
            next_oid: found.super40.oid,
            next_name: UNPLACED,
        },
        volume: Volume {
            super40: found.super40,
            prev: found.head,
        },
        trace,
    })
}

// Puts the log of a device in place, and opens the image that it has then. The order of these two
// is that of the refusals.
fn open_replayed<D: Device>(alloc: Global, dev: &mut D) -> Result<Opened, OpenWhy>
    ensures goes { Goes (D.state dev.old) (D.state dev.new) }
    ensures moments { IsQuiet (D.state dev.old)
        → SettlesAlways (D.state dev.old) (D.state dev.new) }
    ensures quiet { IsQuiet (D.state dev.old) → OnOk result (IsQuiet (D.state dev.new)) }
    ensures found { IfOk result (λ o. IsFound (D.state dev.old) (D.state dev.new) o) }
    ensures refused { IfErr result (λ why.
        IsOpenFault (D.state dev.old) why (D.state dev.new)) }
{
    let placed = match replay(alloc, dev) {
        Ok(placed) => placed,
        Err(fault) => return Err(log_why(fault)),
    };
    let Ok(blocks) = dev.blocks() else {
        return Err(device_why(dev));
    };
    match open_in_place(alloc, dev, placed.head, blocks) {
        Ok(found) => Ok(found),
        Err(unopened) => Err(image_why(dev, unopened)),
    }
}

// Why the log was not put in place.
fn log_why(fault: ReplayFault) -> OpenWhy
    ensures { result ≡ fault_of_log fault }
{
    match fault {
        ReplayFault::Log { block, fault } => OpenWhy::Log { block, fault },
        ReplayFault::Device { clock, faults } => OpenWhy::Device { clock, faults },
        ReplayFault::Size { blocks } => OpenWhy::Size { blocks },
        ReplayFault::Memory => OpenWhy::Memory,
    }
}

// That a device failed.
fn device_why<D: Device>(dev: &D) -> OpenWhy
    ensures { result ≡ HasFailed (D.state dev.now).clock (D.state dev.now).faults }
{
    OpenWhy::Device {
        clock: dev.clock(),
        faults: dev.faults(),
    }
}

// Why the image was not opened.
fn image_why<D: Device>(dev: &D, unopened: Unopened) -> OpenWhy
    ensures { result ≡ fault_of_image (D.state dev.now).clock (D.state dev.now).faults unopened }
{
    match unopened {
        Unopened::Failed => device_why(dev),
        Unopened::Layout { block, fault } => OpenWhy::Image { block, fault },
        Unopened::Memory => OpenWhy::Memory,
    }
}

// The space that the bitmaps tell, which were accepted.
fn read_space(alloc: Global, found: &Opened) -> Result<SpaceMap, Memory>
    requires least { 64 ≤ found.now.super40.block_count }
    requires most { found.now.super40.block_count ≤ 1048576 }
    requires accepted { AreAccepted found.now.super40 found.now.bitmaps.items }
    ensures space { IfOk result (λ s. s ≡ space_of found.now) }
    ensures lawful { IfOk result (λ s. IsLawful s) }
{
    let blocks = found.super40.block_count;
    match SpaceMap::read(alloc, &found.bitmaps, blocks, found.super40.free_blocks) {
        Ok(space) => {
            space.lawful();
            Ok(space)
        }
        Err(SpaceFault::Memory) => Err(Memory),
        Err(SpaceFault::Bitmap { .. }) => unreachable!(),
    }
}

// The root pair that a superblock names.
fn root_in(super40: &Super40) -> Root
    requires { super40.now.tree_height ≤ 8 }
    ensures { root_seen result ≡ root_of super40.now }
{
    Root {
        id: NodeId(super40.root_block),
        height: super40.tree_height as u8,
    }
}

// A trace without entries, with room for one for each `commit` of a job: these may not want memory.
fn first_trace(alloc: Global, job: &Job) -> Result<Trace, Memory>
    ensures none { IfOk result (λ t. t.entries ≡ []) }
    ensures room { IfOk result (λ t. owed (started job.now) ≤ t.spare) }
{
    let mut trace = Trace::new(alloc);
    trace.room(all_commits(job).ok_or(AllocError)?)?;
    Ok(trace)
}

// How many commands of a job are `commit`, if that is a number of 64 bits.
fn all_commits(job: &Job) -> Option<u64>
    ensures { IfSome result (λ n. n ≡ owed (started job.now)) }
{
    let mut all: u64 = 0;
    for script in job.scripts.as_slice() {
        all = all.checked_add(commits(script))?;
    }
    Some(all)
}

// How many commands of a script are `commit`.
fn commits(script: &Script) -> u64
    ensures { result ≡ count_by is_commit script.now.commands }
{
    let commands = script.commands.as_slice().iter();
    commands.filter(|command| asks_commit(command)).count() as u64
}

fn asks_commit(command: &Command) -> bool
    ensures { result ≡ is_commit command.now }
{
    matches!(command, Command::Commit)
}
