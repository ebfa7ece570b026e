//! The listing of a volume (docs/program.md, "Listing").

ghost use Rattle.std.specs.Prelude.{◌≡◌, ◌≤◌, ◌++◌, ℕ, suc, List, length, Some, IfErr};
ghost use Rattle.r4_base.specs.Image.{Image};
ghost use Rattle.r4_base.specs.Value.{Content};
ghost use Rattle.r4_base.specs.Volume.{HasContent, IsReached};
ghost use Rattle.r4_content.specs.Walk.{attr_at};
ghost use Rattle.r4_outside.specs.Device.{TellsReads};
ghost use Rattle.r4_outside.specs.Sink.{Appends};
ghost use Rattle.r4_base.specs.Layout.{IsLawfulSuper};
ghost use Rattle.r4_replay.specs.Homes.{StaysWithin};
ghost use Rattle.r4_search.specs.Path.{root_name};
ghost use Rattle.r4_search.specs.Pool.{IsKnown, LeavesDevice};
ghost use Rattle.r4_list.specs.Lists.{Answers, IsStopFault, PrintsText, log_fault_of, open_fault_of, stop_fault_of};
ghost use Rattle.r4_list.specs.OverWalks.{IsLookedUp};
ghost use Rattle.r4_list.specs.Listing.{IsListing, file_text, lines_of, shown_path};
ghost use Rattle.r4_open.specs.Opening.{IsSettledBy};
ghost use Rattle.r4_list.specs.Over.{IsOver};
ghost use Rattle.r4_list.specs.Printed.{PrintsOver};
ghost use Rattle.r4_list.specs.Walking.{IsEnough};
ghost use Rattle.r4_list.specs.Printing.{Printed, Prints};
ghost use Rattle.r4_list.specs.declared.fault.Stop.TheVariants.{Sink as SinkFailed};
ghost use Rattle.r4_list.specs.declared.fault.ListFault.TheVariants.{Device as DeviceFailed};

use crate::below::print_object;
use crate::body::print_body;
use crate::fault::{ListFault, Stop};
use crate::settled::SettledCells;
use crate::walk::{Walked, walk};
use r4_base::{Attr, NodeId, Super40, Target};
use r4_cell::{ImageFault, Root};
use r4_open::{Unopened, open_image};
use r4_outside::{Device, Sink};
use r4_replay::{Log, ReplayFault, read_log};
use r4_search::{FetchFault, Keeping, Pool};
use std::alloc::Global;

/// Prints what is at a path of a device's settled volume: the object there, and where it is a directory all that is below
/// it, or a file its bytes; or in one word why there is nothing. Nothing is written to the device (docs/program.md,
/// "Listing").
///
/// Condition: the path is not empty. Its first byte is taken for the slash.
///
/// Answers `Size` only outside 64 to 1,048,576 blocks; `Log`, where the log is refused; `Image`, where the superblocks or
/// the bitmaps of the settled image are refused, or a node that is read; `Device` and `Sink`, only where their count rose;
/// `Memory`, where a growth was refused.
pub fn list<D: Device, K: Sink>(
    alloc: Global,
    dev: &mut D,
    path: &[u8],
    out: &mut K,
) -> Result<(), ListFault>
    requires { 1 ≤ length path.now }
    ensures device { LeavesDevice (D.state dev.old) (D.state dev.new) }
    ensures answers { Answers path.now (D.state dev.old) (K.state out.old) result (D.state dev.new) (K.state out.new) }
{
    let log = match read_log(alloc, dev) {
        Ok(log) => log,
        Err(fault) => return Err(log_fault(fault)),
    };
    let Ok(device_blocks) = dev.blocks() else {
        return Err(device_fault(dev));
    };
    let found = match open_image(alloc, dev, &log, device_blocks) {
        Ok(found) => found,
        Err(unopened) => return Err(open_fault(dev, unopened)),
    };
    let Ended { dev: _, printed } = print_settled(alloc, dev, log, &found.super40, out, path);
    printed
}

// A device, and why not all was printed.
struct Ended<E> {
    dev: E,
    printed: Result<(), ListFault>,
}

// Prints what is at a path of the volume of this superblock.
fn print_settled<E: Device, K: Sink>(
    alloc: Global,
    dev: E,
    log: Log,
    found: &Super40,
    out: &mut K,
    path: &[u8],
) -> Ended<E>
    requires path { 1 ≤ length path.now }
    requires lawful { IsLawfulSuper (E.state dev).blocks found.now }
    requires homes { StaysWithin (E.state dev).blocks log }
    ensures device { LeavesDevice (E.state dev) (E.state result.dev) }
    ensures prints { Prints (K.state out.old) (K.state out.new) }
    ensures cause { IfErr result.printed (λ e. IsStopFault log.homes found.now (E.state dev) (K.state out.old) e (E.state result.dev) (K.state out.new)) }
    ensures text { (n : ℕ) (image : Image) (m : Content) (c : HasContent n image m) → TellsReads (E.state dev) → n ≡ (E.state dev).blocks → IsSettledBy (E.state dev) log.homes image → c.super ≡ found.now
        → (text : List ℕ) → IsListing m path.now text → PrintsText text (K.state out.old) result.printed (K.state out.new) }
{
    let root = Root {
        id: NodeId(found.root_block),
        height: found.tree_height as u8,
    };
    let cells = SettledCells::new(dev, log, root, found.block_count);
    let mut nodes = Keeping::nodes(alloc, cells);
    let printed = print_path(alloc, &mut nodes, &root, out, path);
    let dev = nodes.into_pool().into_device();
    if let Err(stop) = printed {
        let fault = fault_of(&dev, out, stop);
        return Ended {
            dev,
            printed: Err(fault),
        };
    }
    Ended {
        dev,
        printed: Ok(()),
    }
}

// Prints what is at a path: over the tree of a content its listing.
fn print_path<P: Pool, K: Sink>(
    alloc: Global,
    pool: &mut P,
    root: &Root,
    out: &mut K,
    path: &[u8],
) -> Result<(), Stop>
    requires path { 1 ≤ length path.now }
    requires some { 1 ≤ root.now.height }
    requires known { IsKnown (P.state pool.old) (root_name root.now) }
    requires root { (P.state pool.old).root ≡ root_name root.now }
    ensures printed { Printed root.now (P.state pool.old) (K.state out.old) result (P.state pool.new) (K.state out.new) (P.device pool.old) (P.device pool.new) }
    ensures over { (n : ℕ) (image : Image) (m : Content) (c : HasContent n image m) → IsOver c root.now (P.state pool.old)
        → (text : List ℕ) → IsListing m path.now text → PrintsOver c root.now text (K.state out.old) result (P.state pool.new) (K.state out.new) }
{
    match walk(alloc, pool, root, path)? {
        Walked::At { object, attr } => print_found(alloc, pool, root, out, &object, &attr, path),
        Walked::NoName => print_word(out, b"name\n"),
        Walked::NoDirectory => print_word(out, b"notdir\n"),
        Walked::NoEntry => print_word(out, b"absent\n"),
    }
}

// Prints why there is nothing.
fn print_word<K: Sink>(out: &mut K, word: &[u8]) -> Result<(), Stop>
    ensures appends { Appends word.now (K.state out.old) result (K.state out.new) }
    ensures cause { IfErr result (λ e. e ≡ SinkFailed) }
{
    out.write(word)?;
    Ok(())
}

// Prints an object that was found at a path: over the tree of a content its lines and its bytes.
fn print_found<P: Pool, K: Sink>(
    alloc: Global,
    pool: &mut P,
    root: &Root,
    out: &mut K,
    object: &Target,
    attr: &Attr,
    path: &[u8],
) -> Result<(), Stop>
    requires some { 1 ≤ root.now.height }
    requires known { IsKnown (P.state pool.old) (root_name root.now) }
    requires root { (P.state pool.old).root ≡ root_name root.now }
    requires reached { IsLookedUp object.now }
    ensures printed { Printed root.now (P.state pool.old) (K.state out.old) result (P.state pool.new) (K.state out.new) (P.device pool.old) (P.device pool.new) }
    ensures over { (n : ℕ) (image : Image) (m : Content) (c : HasContent n image m) → IsOver c root.now (P.state pool.old)
        → (s : ℕ) → IsReached m s object.now → attr_at m object.now ≡ Some attr.now → (steps : ℕ) → IsEnough m steps
        → PrintsOver c root.now (lines_of m (suc steps) object.now (shown_path path.now) ++ file_text m object.now attr.now) (K.state out.old) result (P.state pool.new) (K.state out.new) }
{
    print_object(alloc, pool, root, out, object, attr, shown(path))?;
    if attr.is_directory() {
        return Ok(());
    }
    print_body(alloc, pool, root, out, object, attr.size)
}

// A path as lines show it: none for the root.
fn shown(path: &[u8]) -> &[u8]
    ensures { result.now ≡ shown_path path.now }
{
    if path.len() == 1 {
        return b"";
    }
    path
}

// Why the log was not read.
fn log_fault(fault: ReplayFault) -> ListFault
    ensures { result ≡ log_fault_of fault }
{
    match fault {
        ReplayFault::Log { block, fault } => ListFault::Log { block, fault },
        ReplayFault::Device { clock, faults } => ListFault::Device { clock, faults },
        ReplayFault::Size { blocks } => ListFault::Size { blocks },
        ReplayFault::Memory => ListFault::Memory,
    }
}

// That a device failed.
fn device_fault<D: Device>(dev: &D) -> ListFault
    ensures { result ≡ DeviceFailed (D.state dev.now).clock (D.state dev.now).faults }
{
    ListFault::Device {
        clock: dev.clock(),
        faults: dev.faults(),
    }
}

// Why the image was not opened.
fn open_fault<D: Device>(dev: &D, unopened: Unopened) -> ListFault
    ensures { result ≡ open_fault_of unopened (D.state dev.now).clock (D.state dev.now).faults }
{
    match unopened {
        Unopened::Failed => device_fault(dev),
        Unopened::Layout { block, fault } => {
            let fault = ImageFault::Layout(fault);
            ListFault::Image { block, fault }
        }
        Unopened::Memory => ListFault::Memory,
    }
}

// What is answered where printing stopped.
fn fault_of<D: Device, K: Sink>(dev: &D, out: &K, stop: Stop) -> ListFault
    ensures { result ≡ stop_fault_of stop (D.state dev.now).clock (D.state dev.now).faults (K.state out.now).faults }
{
    match stop {
        Stop::Fetch(FetchFault::Read { .. }) => device_fault(dev),
        Stop::Fetch(FetchFault::Damaged { block, fault }) => {
            let fault = ImageFault::Cell(fault);
            ListFault::Image { block, fault }
        }
        Stop::Fetch(FetchFault::Memory) | Stop::Memory => ListFault::Memory,
        Stop::Sink => ListFault::Sink {
            faults: out.faults(),
        },
    }
}
