//! A commit goes on.

ghost use Rattle.std.specs.Prelude.{◌≡◌, ◌≢◌, ◌+◌, ◌≤◌, ℕ, Some};
ghost use Rattle.r4_ready.specs.r4_commit.Planned.{CommitSeen};
ghost use Rattle.r4_outside.specs.Device.{Goes, Rose, Spares, TellsCrashes};
ghost use Rattle.r4_wander.specs.Progress.{calls_left, under_way};
ghost use Rattle.r4_ready.specs.r4_durable.Meaning.{Beginning, IsNamed};
ghost use Rattle.r4_wander.specs.Needed.{SparesNeeded};
ghost use Rattle.r4_wander.specs.Torn.{IsTarget};
ghost use Rattle.r4_ready.specs.r4_kept.Naming.{names_of};
ghost use Rattle.r4_ready.specs.r4_kept.Steps.{IsAdvanced, IsAtNothing, IsAtPlan, Writes, WritesNothing};
ghost use Rattle.r4_ready.specs.r4_kept.Steps.{emptied};
ghost use Rattle.r4_ready.specs.r4_kept.declared.parts.Commit.{Commit};

use crate::core_state::Core;
use crate::plan_ends::{fail, foot, head, volume_by};
use r4_base::AtomNo;
use r4_cell::on_disk_law;
use r4_outside::{Device, Failed, Run};
use r4_ready::{Commit, Step, step};
use r4_wander::Stage;

impl<D: Device, R: Run> Core<D, R> {
    // One step of the commit's plan. With the journal header the atom is committed, and the trace
    // tells it with the clock then; with the journal footer the commit is over. Where a call of the
    // device fails it is over too, since nothing more is known of its plan.
    pub(crate) fn advance(&mut self) -> Step
        requires { IsAtPlan self.old }
        ensures goes { Goes (D.state self.old.dev) (D.state self.new.dev) }
        ensures advanced { (k : Commit) (w : CommitSeen) → Writes self.old k w
            → IsAdvanced (D.state self.old.dev) (D.state self.new.dev) self.old self.new k w
            result }
        ensures some { (k : Commit) (w : CommitSeen) → Writes self.old k w
            → 1 ≤ calls_left w.work }
        ensures calls { Rose (D.state self.old.dev).clock (D.state self.new.dev).clock
            × ((D.state self.new.dev).clock ≤ (D.state self.old.dev).clock + 4) }
        ensures spares { (k : Commit) (w : CommitSeen) → Writes self.old k w
            → Spares (IsTarget (under_way w.work)) (D.state self.old.dev) (D.state self.new.dev) }
        ensures needed { (b : Beginning) (t : ℕ)
            → IsNamed (names_of R.start R.clock R.scripts) (D.state self.old.dev).blocks b
            → R.clock ≡ Some t → TellsCrashes (D.state self.old.dev)
            → (k : Commit) (w : CommitSeen) → Writes self.old k w → w.work.part ≢ 2
            → SparesNeeded (D.state self.old.dev) (D.state self.new.dev) }
    {
        on_disk_law();
        let Some(commit) = self.commit.take() else {
            unreachable!();
        };
        let Commit { atom, nodes, work } = commit;
        let Some(mut plan) = work else {
            unreachable!();
        };
        let stage = match step(&mut plan, &mut self.dev) {
            Ok(stage) => stage,
            Err(Failed) => return fail(&self.dev, &mut self.broken, &mut self.trace),
        };
        match stage {
            Stage::Headed => {
                let clock = self.dev.clock();
                head(&mut self.atoms, &mut self.trace, atom, clock);
                let work = Some(plan);
                self.commit = Some(Commit { atom, nodes, work });
                Step::Committed(atom)
            }
            Stage::Footed => {
                self.space.lawful();
                self.buffer.lawful();
                foot(
                    &mut self.space,
                    &mut self.atoms,
                    &mut self.buffer,
                    atom,
                    nodes.as_slice(),
                );
                self.volume = volume_by(&plan);
                Step::More
            }
            _ => {
                let work = Some(plan);
                self.commit = Some(Commit { atom, nodes, work });
                Step::More
            }
        }
    }

    // The commit of an atom without cells: it is committed, and the trace tells it, with no call of
    // the device.
    pub(crate) fn empty(&mut self) -> AtomNo
        requires { IsAtNothing self.old }
        ensures goes { Goes (D.state self.old.dev) (D.state self.new.dev) }
        ensures emptied { (k : Commit) → WritesNothing self.old k
            → (self.new ≡ emptied self.old k (D.state self.old.dev).clock) × (result ≡ k.atom) }
    {
        let Some(commit) = self.commit.take() else {
            unreachable!();
        };
        let atom = commit.atom;
        let clock = self.dev.clock();
        head(&mut self.atoms, &mut self.trace, atom, clock);
        self.atoms.clean(atom);
        atom
    }
}
