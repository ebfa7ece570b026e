//! What the steps of a commit's plan end with, on the parts of a core that this changes.

ghost use Rattle.std.specs.Prelude.{◌≡◌, ◌<◌, ℕ, Some, false, true};
ghost use Rattle.r4_atoms.specs.Atoms.{IsAtom, is_committed, is_sealed, owner_of, without_owner};
ghost use Rattle.r4_buffer.specs.Changed.{cleaned, in_turn};
ghost use Rattle.r4_buffer.specs.Seen.{IsLawful, buffered};
ghost use Rattle.r4_others.specs.r4_history.Tables.{with_cleaned, with_committed};
ghost use Rattle.r4_ready.specs.r4_kept.Steps.{with_entry};
ghost use Rattle.r4_space.specs.Space.{settled};

use r4_atoms::Atoms;
use r4_base::{AtomNo, NodeId};
use r4_buffer::Buffer;
use r4_outside::Device;
use r4_ready::{CommitPlan, Step, Volume};
use r4_space::SpaceMap;
use r4_trace::{Entry, Trace};

// A call of the device failed: its clock and its count of faults then, which the trace tells.
pub(crate) fn fail<D: Device>(dev: &D, broken: &mut Option<u64>, trace: &mut Trace) -> Step
    requires { 0 < trace.old.spare }
    ensures broken { broken.new ≡ Some (D.state dev.now).clock }
    ensures told { trace.new ≡ with_entry trace.old
        (Entry.Broken (D.state dev.now).clock (D.state dev.now).faults) }
    ensures step { result ≡ Step.Broken (D.state dev.now).clock (D.state dev.now).faults }
{
    let clock = dev.clock();
    let faults = dev.faults();
    *broken = Some(clock);
    trace.push(Entry::Broken { clock, faults });
    Step::Broken { clock, faults }
}

// The journal header is written, or an atom has no cells: it is committed, and the trace tells it
// with this clock.
pub(crate) fn head(atoms: &mut Atoms, trace: &mut Trace, atom: AtomNo, clock: u64)
    requires atom { IsAtom atoms.old atom.0 }
    requires sealed { is_sealed atoms.old atom.0 ≡ true }
    requires once { is_committed atoms.old atom.0 ≡ false }
    requires room { 0 < trace.old.spare }
    ensures atoms { atoms.new ≡ with_committed atoms.old atom.0 }
    ensures told { trace.new ≡ with_entry trace.old (Entry.Committed atom clock) }
{
    atoms.commit(atom);
    trace.push(Entry::Committed { atom, clock });
}

// The journal footer is written: the atom has settled, and these cells of it are dirty no more.
pub(crate) fn foot(
    space: &mut SpaceMap,
    atoms: &mut Atoms,
    buffer: &mut Buffer,
    atom: AtomNo,
    nodes: &[NodeId],
)
    requires atom { IsAtom atoms.old atom.0 }
    requires sealed { is_sealed atoms.old atom.0 ≡ true }
    ensures space { space.new ≡ settled space.old atom }
    ensures atoms { atoms.new ≡ with_cleaned atoms.old atom.0 }
    ensures owners { (n : ℕ) → owner_of atoms.new n
        ≡ without_owner atom.0 (owner_of atoms.old n) }
    ensures cells { (i : ℕ) → buffered buffer.new i
        ≡ in_turn cleaned nodes.now i (buffered buffer.old i) }
    ensures spare { buffer.new.spare ≡ buffer.old.spare }
    ensures lawful { IsLawful buffer.new }
{
    space.settle(atom);
    atoms.clean(atom);
    buffer.clean(nodes);
    buffer.lawful();
}

// The volume once a plan is written.
pub(crate) fn volume_by(plan: &CommitPlan) -> Volume
    ensures { result ≡ record { super40 = plan.now.super40; prev = plan.now.head } }
{
    Volume {
        super40: *plan.super40(),
        prev: plan.head(),
    }
}
