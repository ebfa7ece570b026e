//! What is below a directory (docs/program.md, "Listing").

ghost use Rattle.std.specs.Prelude.{◌≡◌, ℕ, ◌^◌, ◌<◌, ◌≤◌, ◌+◌, suc, List, [], ◌∷◌, ◌++◌, take, Some, OnOk, IfErr};
ghost use Rattle.std.specs.Arc.{arc_value};
ghost use Rattle.r4_base.specs.Image.{Image};
ghost use Rattle.r4_base.specs.Key.{rank};
ghost use Rattle.r4_base.specs.Value.{Content};
ghost use Rattle.r4_base.specs.Volume.{HasContent, IsReached};
ghost use Rattle.r4_base.specs.declared.items.Attr.{Attr as Attributes};
ghost use Rattle.r4_base.specs.declared.items.Target.{Target as Named};
ghost use Rattle.r4_cde.specs.Shown.{name_bytes};
ghost use Rattle.r4_content.specs.Walk.{attr_at};
ghost use Rattle.r4_search.specs.Path.{root_name};
ghost use Rattle.r4_search.specs.Pool.{Goes, IsKnown, LeavesDevice};
ghost use Rattle.r4_list.specs.Below.{GoesDown, GoesOn, IsFrameOf, IsHeld, IsPushed, PrintsOne, left_in, printed_in, weight};
ghost use Rattle.r4_list.specs.Listing.{lines_of};
ghost use Rattle.r4_list.specs.Over.{IsOver};
ghost use Rattle.r4_list.specs.Printed.{PrintsOver};
ghost use Rattle.r4_list.specs.Printing.{IsPoolCause, Printed};
ghost use Rattle.r4_list.specs.Walking.{IsEnough, IsWalking, OpenDir, open_from, rest_of};

use crate::fault::Stop;
use crate::frame::{Frame, Place, first_frame, next_frame, place_in};
use crate::line::push_line;
use crate::lookup::attr_of;
use r4_base::{Attr, Memory, Oid, Target};
use r4_cde::NameRef;
use r4_cell::Root;
use r4_outside::Sink;
use r4_search::Pool;
use r4_units::name_bytes;
use std::alloc::Global;
use std::collections::BTreeSet;
use std::sync::Arc;

/// The directories that are being printed, each below the one before it, and those that were printed. `path` is the path
/// of the object at hand, and `line` room for its line.
#[derive(Drop)]
pub struct Below {
    frames: Vec<Frame>,
    printed: BTreeSet<u64>,
    path: Vec<u8>,
    line: Vec<u8>,
}

/// Prints an object's line, and where it is a directory what is below it (docs/program.md, "Listing"). Over the tree of a
/// content these are the lines of the object that it says, or where the sink fails a prefix of them, and no block is refused.
pub fn print_object<P: Pool, K: Sink>(
    alloc: Global,
    pool: &mut P,
    root: &Root,
    out: &mut K,
    object: &Target,
    attr: &Attr,
    path: &[u8],
) -> Result<(), Stop>
    requires some { 1 ≤ root.now.height }
    requires known { IsKnown (P.state pool.old) (root_name root.now) }
    requires root { (P.state pool.old).root ≡ root_name root.now }
    requires small { object.now.oid.0 < 2 ^ 60 }
    ensures printed { Printed root.now (P.state pool.old) (K.state out.old) result (P.state pool.new) (K.state out.new) (P.device pool.old) (P.device pool.new) }
    ensures over { (n : ℕ) (image : Image) (m : Content) (c : HasContent n image m) → IsOver c root.now (P.state pool.old)
        → (s : ℕ) → IsReached m s object.now → attr_at m object.now ≡ Some attr.now → (steps : ℕ) → IsEnough m steps
        → PrintsOver c root.now (lines_of m (suc steps) object.now path.now) (K.state out.old) result (P.state pool.new) (K.state out.new) }
{
    let mut below = Below {
        frames: Vec::new(alloc),
        printed: BTreeSet::new(alloc),
        path: Vec::from_slice(alloc, path)?,
        line: Vec::new(alloc),
    };
    below.print_one(alloc, pool, root, out, object, attr)?;
    while let Some(frame) = below.frames.pop() {
        below.go_on(alloc, pool, root, out, frame)?;
    }
    Ok(())
}

impl Below {
    // Prints the line of an object with the path at hand; a directory that was not printed before is gone into.
    fn print_one<P: Pool, K: Sink>(
        &mut self,
        alloc: Global,
        pool: &mut P,
        root: &Root,
        out: &mut K,
        object: &Target,
        attr: &Attr,
    ) -> Result<(), Stop>
        requires some { 1 ≤ root.now.height }
        requires known { IsKnown (P.state pool.old) (root_name root.now) }
        requires root { (P.state pool.old).root ≡ root_name root.now }
        requires small { object.now.oid.0 < 2 ^ 60 }
        ensures printed { Printed root.now (P.state pool.old) (K.state out.old) result (P.state pool.new) (K.state out.new) (P.device pool.old) (P.device pool.new) }
        ensures smaller { OnOk result (left_in self.new ≤ left_in self.old) }
        ensures over { (n : ℕ) (image : Image) (m : Content) (c : HasContent n image m) → IsOver c root.now (P.state pool.old)
            → PrintsOne c root.now object.now attr.now self.old (K.state out.old) result (P.state pool.new) self.new (K.state out.new) }
    {
        self.line.clear();
        push_line(&mut self.line, attr, &self.path)?;
        out.write(&self.line)?;
        if !attr.is_directory() {
            return Ok(());
        }
        let before = self.printed.len();
        self.printed.insert(object.oid.0)?;
        if self.printed.len() == before {
            return Ok(());
        }
        let Some(frame) = first_frame(alloc, pool, root, object.oid, self.path.len())? else {
            return Ok(());
        };
        self.frames.push(frame)?;
        Ok(())
    }

    // Goes on with a directory: prints the entry at its place, or moves the place.
    fn go_on<P: Pool, K: Sink>(
        &mut self,
        alloc: Global,
        pool: &mut P,
        root: &Root,
        out: &mut K,
        frame: Frame,
    ) -> Result<(), Stop>
        requires some { 1 ≤ root.now.height }
        requires known { IsKnown (P.state pool.old) (root_name root.now) }
        requires root { (P.state pool.old).root ≡ root_name root.now }
        ensures printed { Printed root.now (P.state pool.old) (K.state out.old) result (P.state pool.new) (K.state out.new) (P.device pool.old) (P.device pool.new) }
        ensures smaller { OnOk result (left_in self.new < left_in self.old + weight frame) }
        ensures over { (n : ℕ) (image : Image) (m : Content) (c : HasContent n image m) → IsOver c root.now (P.state pool.old)
            → (start : Named) (f : OpenDir) (fs : List OpenDir) → IsHeld c f fs self.old frame → IsWalking m start (f ∷ fs) (printed_in self.old) → (steps : ℕ) → IsEnough m steps
            → GoesOn c root.now start steps (rest_of m steps (f ∷ fs)) (K.state out.old) result (P.state pool.new) self.new (K.state out.new) }
    {
        let leaf = Arc::try_clone(&frame.leaf)?;
        match place_in(&leaf, frame.dir, frame.item, frame.entry) {
            Place::Entry(entry) => {
                self.go_past(frame, &entry.name)?;
                self.print_entry(alloc, pool, root, out, &entry.target)
            }
            Place::ItemEnd => Ok(self.go_to_item(frame)?),
            Place::LeafEnd => self.go_to_leaf(alloc, pool, root, frame),
            Place::DirEnd => Ok(()),
        }
    }

    // The place is moved behind the entry, whose path is the path at hand from then on.
    fn go_past(&mut self, frame: Frame, name: &NameRef<'_>) -> Result<(), Memory>
        requires { frame.entry + 1 < 2 ^ 16 }
        ensures smaller { OnOk result (left_in self.new < left_in self.old + weight frame) }
        ensures path { OnOk result (self.new.path.items ≡ take frame.path self.old.path.items ++ 47 ∷ name_bytes name.now) }
        ensures printed { OnOk result (self.new.printed ≡ self.old.printed) }
        ensures pushed { OnOk result (IsPushed frame frame.item (frame.entry + 1) self.old.frames.items self.new.frames.items) }
    {
        self.path.truncate(frame.path);
        self.path.push(b'/')?;
        self.path.extend_from_slice(name_bytes(name))?;
        self.frames.push(frame.past_entry())?;
        Ok(())
    }

    // Prints what an entry names, where it is an object.
    fn print_entry<P: Pool, K: Sink>(
        &mut self,
        alloc: Global,
        pool: &mut P,
        root: &Root,
        out: &mut K,
        object: &Target,
    ) -> Result<(), Stop>
        requires some { 1 ≤ root.now.height }
        requires known { IsKnown (P.state pool.old) (root_name root.now) }
        requires root { (P.state pool.old).root ≡ root_name root.now }
        ensures printed { Printed root.now (P.state pool.old) (K.state out.old) result (P.state pool.new) (K.state out.new) (P.device pool.old) (P.device pool.new) }
        ensures smaller { OnOk result (left_in self.new ≤ left_in self.old) }
        ensures over { (n : ℕ) (image : Image) (m : Content) (c : HasContent n image m) → IsOver c root.now (P.state pool.old) → (a : Attributes) → attr_at m object.now ≡ Some a
            → PrintsOne c root.now object.now a self.old (K.state out.old) result (P.state pool.new) self.new (K.state out.new) }
    {
        match attr_of(alloc, pool, root, object)? {
            Some(attr) => self.print_one(alloc, pool, root, out, object, &attr),
            None => Ok(()),
        }
    }

    // The place is moved to the next item.
    fn go_to_item(&mut self, frame: Frame) -> Result<(), Memory>
        requires { frame.item + 1 < 2 ^ 16 }
        ensures smaller { OnOk result (left_in self.new < left_in self.old + weight frame) }
        ensures path { self.new.path ≡ self.old.path }
        ensures printed { self.new.printed ≡ self.old.printed }
        ensures pushed { OnOk result (IsPushed frame (frame.item + 1) 0 self.old.frames.items self.new.frames.items) }
    {
        self.frames.push(frame.past_item())?;
        Ok(())
    }

    // The place is moved to the next leaf, where that may have entries of the directory.
    fn go_to_leaf<P: Pool>(
        &mut self,
        alloc: Global,
        pool: &mut P,
        root: &Root,
        frame: Frame,
    ) -> Result<(), Stop>
        requires some { 1 ≤ root.now.height }
        requires known { IsKnown (P.state pool.old) (root_name root.now) }
        requires root { (P.state pool.old).root ≡ root_name root.now }
        ensures goes { Goes (P.state pool.old) (P.state pool.new) }
        ensures device { LeavesDevice (P.device pool.old) (P.device pool.new) }
        ensures cause { IfErr result (λ e. IsPoolCause root.now (P.state pool.old) e (P.state pool.new)) }
        ensures smaller { OnOk result (left_in self.new < left_in self.old + weight frame) }
        ensures over { (n : ℕ) (image : Image) (m : Content) (c : HasContent n image m) → IsOver c root.now (P.state pool.old)
            → (f : OpenDir) → IsFrameOf c f frame → GoesDown c root.now (open_from f (rank (arc_value frame.leaf).hi)) self.old result (P.state pool.new) self.new }
    {
        let Some(next) = next_frame(alloc, pool, root, &frame)? else {
            return Ok(());
        };
        self.frames.push(next)?;
        Ok(())
    }
}
