//! The check of a settled image (docs/check.md).

ghost use Rattle.std.specs.Prelude.{◌≡◌, ◌<◌, ◌≤◌, IfErr};
ghost use Rattle.r4_base.specs.Image.{Image};
ghost use Rattle.r4_list.specs.Lists.{log_fault_of, open_fault_of, root_name_of};
ghost use Rattle.r4_list.specs.Printing.{Prints};
ghost use Rattle.r4_list.specs.declared.fault.ListFault.TheVariants.{Device as DeviceFailed};
ghost use Rattle.r4_list.specs.r4_search.Pool.{LeavesDevice};
ghost use Rattle.r4_check.specs.Looking.{IsGround, IsStopCause, name_of};
ghost use Rattle.r4_check.specs.Tree.{Checks, PrintsWalk, fault_of_stop};
ghost use Rattle.r4_check.specs.Walk.{check_of};

use crate::look::look_at_node;
use crate::objects::tell_objects;
use crate::reading::Named;
use crate::settled::Settled;
use crate::stop::Stop;
use crate::tally::Tally;
use r4_cell::{ImageFault, least, top};
use r4_list::ListFault;
use r4_open::{Unopened, open_image};
use r4_outside::{Device, Sink};
use r4_replay::{ReplayFault, read_log};
use std::alloc::Global;

/// What a check found: how many stat data were read, and how many faults were printed. Both numbers stand still at
/// 2^64 - 1 (docs/check.md).
#[derive(Clone, Copy, Debug, PartialEq, Eq)]
pub struct Verdict {
    pub objects: u64,
    pub faults: u64,
}

/// Walks over the tree of a device's settled image and prints the line of each fault: for each block that is
/// named `twice` where it was reached before, else `unmarked` where its bit is 0, else for a node the word of
/// its first fault at its level and range. A node comes before what it names, and all in order of keys. Each
/// node is read once, and nothing below one that is refused or was reached before. Where no node was refused and no
/// block is named twice, the faults of objects follow by rising object id, each at most once an object: `size`,
/// `links`, `lost`, `id`; and last `files`. Nothing is written to the device, and no other line is printed: the line
/// that counts is the caller's. It needs memory for the bitmaps, a bit more for each block, and some tens of bytes for
/// each thing that the nodes hold (docs/check.md).
///
/// Answers `Size` only outside 64 to 1,048,576 blocks; `Log`, where the log is refused; `Image`, where the
/// superblocks or the bitmaps of the settled image are refused, and never for a node; `Device` and `Sink`, only
/// where their count rose; `Memory`, where a growth was refused.
pub fn check<D: Device, K: Sink>(
    alloc: Global,
    dev: &mut D,
    out: &mut K,
) -> Result<Verdict, ListFault>
    ensures device { LeavesDevice (D.state dev.old) (D.state dev.new) }
    ensures checks { Checks (D.state dev.old) (K.state out.old) result (D.state dev.new)
        (K.state out.new) }
{
    let log = match read_log(alloc, dev) {
        Ok(log) => log,
        Err(fault) => return Err(log_fault(fault)),
    };
    let Ok(device_blocks) = dev.blocks() else {
        return Err(device_fault(dev));
    };
    let found = match open_image(alloc, dev, &log, device_blocks) {
        Ok(found) => found,
        Err(unopened) => return Err(open_fault(dev, unopened)),
    };
    let settled = Settled {
        device_blocks,
        log,
        found,
    };
    match walk_settled(alloc, dev, out, &settled) {
        Ok(verdict) => Ok(verdict),
        Err(stop) => Err(fault_of(dev, out, stop)),
    }
}

// Walks over the tree of an image that was opened, and looks at its objects.
fn walk_settled<D: Device, K: Sink>(
    alloc: Global,
    dev: &mut D,
    out: &mut K,
    settled: &Settled,
) -> Result<Verdict, Stop>
    requires { settled.now.device_blocks ≡ (D.state dev.old).blocks }
    ensures device { LeavesDevice (D.state dev.old) (D.state dev.new) }
    ensures prints { Prints (K.state out.old) (K.state out.new) }
    ensures cause { IfErr result (λ e.
        IsStopCause (D.state dev.old) (K.state out.old) e (D.state dev.new) (K.state out.new)) }
    ensures walk { (image : Image) → IsGround settled.now (D.state dev.old) image
        → PrintsWalk (check_of settled.now.found.super40 image) (K.state out.old)
        result (K.state out.new) }
{
    let mut tally = Tally::new(alloc, settled.blocks())?;
    look_at_node(alloc, dev, out, settled, &mut tally, &root_of(settled))?;
    tell_objects(alloc, out, settled, &mut tally)?;
    Ok(Verdict {
        objects: tally.gathered.objects,
        faults: tally.faults,
    })
}

// The root, as the superblock names it.
fn root_of(settled: &Settled) -> Named
    ensures name { name_of result ≡ root_name_of settled.now.found.super40 }
    ensures level { 1 ≤ result.level }
    ensures within { result.id < settled.now.found.super40.block_count }
{
    Named {
        id: settled.found.super40.root_block,
        level: settled.found.super40.tree_height as u8,
        lo: least(),
        hi: top(),
    }
}

// Why the log was not read.
fn log_fault(fault: ReplayFault) -> ListFault
    ensures { result ≡ log_fault_of fault }
{
    match fault {
        ReplayFault::Log { block, fault } => ListFault::Log { block, fault },
        ReplayFault::Device { clock, faults } => ListFault::Device { clock, faults },
        ReplayFault::Size { blocks } => ListFault::Size { blocks },
        ReplayFault::Memory => ListFault::Memory,
    }
}

// That a device failed.
fn device_fault<D: Device>(dev: &D) -> ListFault
    ensures { result ≡ DeviceFailed (D.state dev.now).clock (D.state dev.now).faults }
{
    ListFault::Device {
        clock: dev.clock(),
        faults: dev.faults(),
    }
}

// Why the image was not opened.
fn open_fault<D: Device>(dev: &D, unopened: Unopened) -> ListFault
    ensures { result ≡ open_fault_of unopened (D.state dev.now).clock (D.state dev.now).faults }
{
    match unopened {
        Unopened::Failed => device_fault(dev),
        Unopened::Layout { block, fault } => {
            let fault = ImageFault::Layout(fault);
            ListFault::Image { block, fault }
        }
        Unopened::Memory => ListFault::Memory,
    }
}

// What is answered where a walk stopped.
fn fault_of<D: Device, K: Sink>(dev: &D, out: &K, stop: Stop) -> ListFault
    ensures { result ≡ fault_of_stop stop (D.state dev.now).clock (D.state dev.now).faults
        (K.state out.now).faults }
{
    match stop {
        Stop::Device => device_fault(dev),
        Stop::Sink => ListFault::Sink {
            faults: out.faults(),
        },
        Stop::Memory => ListFault::Memory,
    }
}
