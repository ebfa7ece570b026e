//! The core: its parts, and what holds of them.

ghost use Rattle.std.specs.Prelude.{◌≡◌, ℕ, ◌≤◌, List, Option, Some, None, MatchOption};
ghost use Rattle.std.specs.Borrow.{GName};
ghost use Rattle.std.specs.Option.{option_map};
ghost use Rattle.r4_atoms.specs.Atoms.{IsClosedAtom, IsSmallestClosed};
ghost use Rattle.r4_content.specs.Locality.{commands};
ghost use Rattle.r4_content.specs.Meaning.{greatest_size};
ghost use Rattle.r4_ready.specs.r4_durable.Meaning.{Beginning, BeginsWith, IsNamed, IsSafeTrace, start_of};
ghost use Rattle.r4_base.specs.Volume.{HasVolume};
ghost use Rattle.r4_trace.specs.Folds.{after_first};
ghost use Rattle.r4_others.specs.r4_history.Tables.{asked};
ghost use Rattle.r4_trace.specs.Legal.{IsLegal};
ghost use Rattle.r4_trace.specs.Traced.{committed_in, latest};
ghost use Rattle.r4_buffer.specs.Seen.{IsLawful};
ghost use Rattle.r4_core.specs.Doing.{naming};
ghost use Rattle.r4_ready.specs.r4_kept.Kept.{IsKept};
ghost use Rattle.r4_ready.specs.r4_kept.Naming.{names_of};
ghost use Rattle.r4_locks.specs.Locks.{AreHolds};

use r4_atoms::Atoms;
use r4_base::AtomNo;
use r4_buffer::Buffer;
use r4_cell::Root;
use r4_locks::LockTable;
use r4_outside::{Device, Run};
use r4_ready::{Commit, Numbers, Volume};
use r4_script::Job;
use r4_space::SpaceMap;
use r4_trace::Trace;
use r4_turns::Turns;
use std::marker::{Model, PhantomData};

/// A device with a volume, and all that a run keeps beside it. `R` says with what the run began, as far as it is named.
pub struct Core<D: Device, R: Run> {
    pub(crate) dev: D,
    pub(crate) turns: Turns,
    pub(crate) locks: LockTable,
    pub(crate) atoms: Atoms,
    pub(crate) buffer: Buffer,
    pub(crate) space: SpaceMap,
    pub(crate) tree: Root,
    pub(crate) numbers: Numbers,
    pub(crate) volume: Volume,
    pub(crate) commit: Option<Commit>,
    pub(crate) broken: Option<u64>,
    pub(crate) trace: Trace,
    pub(crate) threshold: u64,
    pub(crate) run: PhantomData<R>,
}

impl<D: Device, R: Run> Model for Core<D, R> {
    ghost use Rattle.r4_ready.specs.r4_kept.View.{CoreSeen};
    ghost use Rattle.r4_ready.specs.r4_kept.Kept.{IsKept};

    ghost Value = { CoreSeen D };

    ghost view = { λ c. record {
      dev = c.dev;
      turns = c.turns;
      locks = c.locks;
      atoms = c.atoms;
      buffer = c.buffer;
      space = c.space;
      tree = c.tree;
      numbers = c.numbers;
      volume = c.volume;
      commit = c.commit;
      broken = c.broken;
      trace = c.trace;
      threshold = c.threshold;
    } };

    ghost invariant = { λ c. IsKept
        (record { start = R.start; clock = R.clock; scripts = R.scripts; lender = R.lender })
        (D.state c.dev)
        (record {
          dev = c.dev;
          turns = c.turns;
          locks = c.locks;
          atoms = c.atoms;
          buffer = c.buffer;
          space = c.space;
          tree = c.tree;
          numbers = c.numbers;
          volume = c.volume;
          commit = c.commit;
          broken = c.broken;
          trace = c.trace;
          threshold = c.threshold;
        }) };
}

impl<D: Device, R: Run> Core<D, R> {
    /// The entries of the run. No memory.
    pub fn trace(&self) -> &Trace
        ensures { result.now ≡ self.now.trace }
    {
        &self.trace
    }

    /// The job as it stands now. No memory.
    pub fn job(&self) -> &Job
        ensures { result.now ≡ self.now.turns.job }
    {
        self.turns.job()
    }

    /// The turns of the scripts. No memory.
    pub fn turns(&self) -> &Turns
        ensures { result.now ≡ self.now.turns }
    {
        &self.turns
    }

    /// The table of atoms. No memory.
    pub fn atoms(&self) -> &Atoms
        ensures { result.now ≡ self.now.atoms }
    {
        &self.atoms
    }

    /// The cells in memory. No memory.
    pub fn buffer(&self) -> &Buffer
        ensures { result.now ≡ self.now.buffer }
    {
        &self.buffer
    }

    /// Which blocks are used, and for what. No memory.
    pub fn space(&self) -> &SpaceMap
        ensures { result.now ≡ self.now.space }
    {
        &self.space
    }

    /// What tasks hold. No memory.
    pub fn locks(&self) -> &LockTable
        ensures { result.now ≡ self.now.locks }
    {
        &self.locks
    }

    /// The committed superblock, and the head that the journal header names. No memory.
    pub fn volume(&self) -> &Volume
        ensures { result.now ≡ self.now.volume }
    {
        &self.volume
    }

    /// The root pair of the tree of all atoms.
    pub fn tree(&self) -> Root
        ensures { result ≡ self.now.tree }
    {
        self.tree
    }

    /// The numbers that are drawn next.
    pub fn numbers(&self) -> Numbers
        ensures { result ≡ self.now.numbers }
    {
        self.numbers
    }

    /// The clock of the call of the device that failed, if one did.
    pub fn broken(&self) -> Option<u64>
        ensures { result ≡ self.now.broken }
    {
        self.broken
    }

    /// The atom whose commit is under way, if one is. No memory.
    pub fn atom_under_way(&self) -> Option<AtomNo>
        ensures { result ≡ option_map (λ k. k.atom) self.now.commit }
    {
        self.commit.as_ref().map(|k| k.atom)
    }

    /// What holds of every core. It changes nothing.
    pub fn lawful(&self)
        ensures kept { IsKept (naming R.start R.clock R.scripts R.lender) (D.state self.now.dev)
            self.now }
        ensures buffer { IsLawful self.now.buffer }
        ensures holds { AreHolds self.now.locks }
    {
        self.buffer.lawful();
        self.locks.lawful();
    }

    /// The smallest atom that was never sealed and has no open transaction. No memory.
    pub fn next_atom(&self) -> Option<AtomNo>
        ensures { MatchOption result
            ((a : ℕ) → IsClosedAtom self.now.atoms a → ⊥)
            (λ a. IsSmallestClosed self.now.atoms a.0) }
    {
        self.atoms.next_closed()
    }

    /// The device, which goes back.
    pub fn into_device(self) -> D
        ensures device { result ≡ self.dev }

        // To whom it goes back.
        ensures lender { (l : List GName) → R.lender ≡ Some l → (D.state result).lender ≡ l }

        // The trace is a legal one of the job, no clock in it is above the device's, and it is crash-safe.
        ensures legal { (o : Option Beginning)
            → BeginsWith (names_of R.start R.clock R.scripts) (D.state result).blocks o
            → IsLegal (commands greatest_size) (option_map start_of o) (Some (asked self.turns.job))
            self.trace.entries }
        ensures time { latest self.trace.entries ≤ (D.state result).clock }
        ensures safe { IsSafeTrace greatest_size (names_of R.start R.clock R.scripts)
            self.trace.entries (D.state result) }

        // Where nothing is under way and no call failed, it has the content that the committed atoms made.
        ensures content { (b : Beginning)
            → IsNamed (names_of R.start R.clock R.scripts) (D.state result).blocks b
            → self.broken ≡ None → self.commit ≡ None
            → HasVolume (D.state result).blocks (D.state result).seen
            (after_first (commands greatest_size) b.content self.trace.entries
            (committed_in self.trace.entries)) }
    {
        let Core {
            dev,
            turns: _,
            locks: _,
            atoms: _,
            buffer: _,
            space: _,
            tree: _,
            numbers: _,
            volume: _,
            commit: _,
            broken: _,
            trace: _,
            threshold: _,
            run: _,
        } = self;
        dev
    }
}

/// A core may go from one thread to another: it comes back as it was.
pub fn goes_to_threads<D: Device, R: Run>(core: Core<D, R>) -> Core<D, R>
    ensures { result ≡ core }
{
    sent(core)
}

// What may go from one thread to another, as it is.
fn sent<T: Send>(value: T) -> T
    ensures { result ≡ value }
{
    value
}
