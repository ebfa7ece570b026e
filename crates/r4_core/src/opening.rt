//! A core is opened.

ghost use Rattle.std.specs.Prelude.{◌≡◌, ℕ, [], List, IfErr, IfOk, IsSome, Ok, Some};
ghost use Rattle.std.specs.Borrow.{GName};
ghost use Rattle.r4_base.specs.Image.{Image};
ghost use Rattle.r4_content.specs.Meaning.{greatest_size};
ghost use Rattle.r4_ready.specs.r4_durable.Meaning.{IsSafeTrace};
ghost use Rattle.r4_outside.specs.Device.{Goes, IsQuiet, TellsCrashes, TellsReads};
ghost use Rattle.r4_script.specs.Spelling.{AreScripts};
ghost use Rattle.r4_script.specs.Text.{job_of};
ghost use Rattle.r4_ready.specs.r4_kept.Naming.{names_of};
ghost use Rattle.r4_core.specs.Opening.{IsAtStart, OpensFrom};
ghost use Rattle.r4_start.specs.Starting.{IsOpenFault};

use crate::core_state::Core;
use r4_atoms::Atoms;
use r4_buffer::Buffer;
use r4_locks::LockTable;
use r4_outside::{Device, Run};
use r4_script::Job;
use r4_start::{OpenFault, Start, start_of};
use std::alloc::Global;
use std::marker::PhantomData;

impl<D: Device, R: Run> Core<D, R> {
    /// Opens the volume of a device for a job: puts its log in place, and reads its superblocks and
    /// bitmaps. `threshold` is the number of cells from which on an atom is flushed by itself
    /// (docs/core.md, "Opening").
    ///
    /// Conditions: no `commit` of the job stands inside of a transaction, as in each job of a text;
    /// and what the run names is so: an image is the one that the device reads, a clock its clock,
    /// a text that of the job. Where it names image and clock, nothing is left to sync.
    ///
    /// Refused in this order: `Size` outside 64 to 1,048,576 blocks; `Log`, with nothing written;
    /// `Image`, once the log was put in place. `Device` comes only where the count of faults rose,
    /// and `Memory` where a growth was refused, and with 2^32 scripts or a script of as many
    /// commands, which no text spells.
    pub fn open(alloc: Global, dev: D, job: Job, threshold: u64) -> Result<Core<D, R>, OpenFault<D>>
        requires job { AreScripts job.scripts }
        requires start { (i : Image) → R.start ≡ Some i
            → TellsReads (D.state dev) × (i ≡ (D.state dev).seen) }
        requires clock { (t : ℕ) → R.clock ≡ Some t → t ≡ (D.state dev).clock }
        requires quiet { IsSome R.start → IsSome R.clock → TellsCrashes (D.state dev)
            → IsQuiet (D.state dev) }
        requires scripts { (t : List ℕ) → R.scripts ≡ Some t → job_of t ≡ Ok job }
        requires lender { (l : List GName) → R.lender ≡ Some l → (D.state dev).lender ≡ l }

        // The core is at the start of the job, on the volume of the image with its log in place.
        ensures start { IfOk result (λ c. IsAtStart job threshold c) }
        ensures opened { IfOk result (λ c. OpensFrom (D.state dev) (D.state c.dev) c) }
        ensures goes { IfOk result (λ c. Goes (D.state dev) (D.state c.dev)) }

        // Else it is told why, and the device is such that a run without an entry is crash-safe.
        ensures refused { IfErr result (λ e. Goes (D.state dev) (D.state e.dev)
            × IsOpenFault (D.state dev) e.why (D.state e.dev)) }
        ensures safe { IfErr result (λ e. IsSafeTrace greatest_size
            (names_of R.start R.clock R.scripts) [] (D.state e.dev)) }
    {
        let mut dev = dev;
        let Start {
            turns,
            space,
            tree,
            numbers,
            volume,
            trace,
        } = match start_of(alloc, &mut dev, job) {
            Ok(start) => start,
            Err(why) => return Err(OpenFault { dev, why }),
        };
        Ok(Core {
            dev,
            turns,
            locks: LockTable::new(alloc),
            atoms: Atoms::new(alloc),
            buffer: Buffer::new(alloc),
            space,
            tree,
            numbers,
            volume,
            commit: None,
            broken: None,
            trace,
            threshold,
            run: PhantomData,
        })
    }
}
