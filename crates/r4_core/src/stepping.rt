//! The steps of a commit that callers make.

ghost use Rattle.std.specs.Prelude.{◌≡◌, ◌≢◌, ◌↔◌, ◌+◌, ◌≤◌, ℕ, None, Some, false, true};
ghost use Rattle.std.specs.Prelude.{slice_index_or};
ghost use Rattle.r4_ready.specs.r4_commit.Planned.{CommitSeen};
ghost use Rattle.r4_outside.specs.Device.{Goes, Rose, Spares, TellsCrashes};
ghost use Rattle.r4_wander.specs.Progress.{calls_left, under_way};
ghost use Rattle.r4_ready.specs.r4_durable.Meaning.{Beginning, IsNamed};
ghost use Rattle.r4_space.specs.Space.{is_claimed};
ghost use Rattle.r4_wander.specs.Needed.{SparesNeeded};
ghost use Rattle.r4_wander.specs.Torn.{IsTarget};
ghost use Rattle.r4_ready.specs.r4_kept.Naming.{names_of};
ghost use Rattle.r4_ready.specs.r4_kept.Accounts.{IsStill};
ghost use Rattle.r4_ready.specs.r4_kept.Steps.{TakesStep, Writes};
ghost use Rattle.r4_ready.specs.r4_kept.declared.parts.Commit.{Commit};
ghost use Rattle.r4_ready.specs.r4_kept.declared.parts.Step.TheVariants.{Idle};

use crate::core_state::Core;
use r4_outside::{Device, Run};
use r4_ready::Step;

impl<D: Device, R: Run> Core<D, R> {
    /// Makes one step of the commit under way: from one to four writes and syncs, or none for an
    /// atom without cells. It takes no memory. `Idle` comes where no commit is under way,
    /// `Committed` from the step that wrote and synced the journal header, `Broken` where a call of
    /// the device failed (docs/core.md, "A commit").
    pub fn commit_step(&mut self) -> Step
        ensures goes { Goes (D.state self.old.dev) (D.state self.new.dev) }

        // It does nothing, or what its commit asks for: with the journal header and for an atom
        // without cells comes the Committed entry, where a call fails the Broken one, each with the
        // clock then.
        ensures step { TakesStep (D.state self.old.dev) (D.state self.new.dev) self.old self.new
            self.old.commit result }
        ensures idle { (result ≡ Idle) ↔ (self.old.commit ≡ None) }

        // A plan has calls left, and the step makes one to four of them.
        ensures some { (k : Commit) (w : CommitSeen) → Writes self.old k w
            → 1 ≤ calls_left w.work }
        ensures calls { (k : Commit) (w : CommitSeen) → Writes self.old k w
            → Rose (D.state self.old.dev).clock (D.state self.new.dev).clock
            × ((D.state self.new.dev).clock ≤ (D.state self.old.dev).clock + 4) }

        // No write falls on another block than those of the part that is under way.
        ensures spares { (k : Commit) (w : CommitSeen) → Writes self.old k w
            → Spares (IsTarget (under_way w.work)) (D.state self.old.dev) (D.state self.new.dev) }

        // But for the homes none falls on a block that an image needs which a crash meanwhile may
        // leave, in a run that names its image and its clock, on a device that tells this.
        ensures needed { (b : Beginning) (t : ℕ)
            → IsNamed (names_of R.start R.clock R.scripts) (D.state self.old.dev).blocks b
            → R.clock ≡ Some t → TellsCrashes (D.state self.old.dev)
            → (k : Commit) (w : CommitSeen) → Writes self.old k w → w.work.part ≢ 2
            → SparesNeeded (D.state self.old.dev) (D.state self.new.dev) }

        // Where none is under way and no call failed, nothing is sealed, held or placed.
        ensures rests { result ≡ Idle → self.old.broken ≡ None
            → IsStill self.new.space.sealed self.new.space.held self.new.space.placed }

        // In a run that names an image with a volume each block that is deferred is marked then.
        ensures comes_back { result ≡ Idle → self.old.broken ≡ None → (b : Beginning)
            → IsNamed (names_of R.start R.clock R.scripts) (D.state self.new.dev).blocks b
            → (k : ℕ) → is_claimed self.new.space.deferred k ≡ true
            → slice_index_or self.new.space.marked k false ≡ true }
    {
        let writes = match &self.commit {
            None => return Step::Idle,
            Some(commit) => commit.work.is_some(),
        };
        if writes {
            self.advance()
        } else {
            Step::Committed(self.empty())
        }
    }
}
