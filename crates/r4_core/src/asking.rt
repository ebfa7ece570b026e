//! A core is asked what becomes of a command.

ghost use Rattle.std.specs.Prelude.{◌≡◌, IfOk, None};
ghost use Rattle.std.specs.Option.{option_map};
ghost use Rattle.r4_content.specs.Fields.{HasBytePaths};
ghost use Rattle.r4_ready.specs.Readiness.{parts_of, plan_of};
ghost use Rattle.r4_buffer.specs.r4_search.Pool.{LeavesDevice};
ghost use Rattle.r4_ready.specs.r4_serve.Serving.{Asks};

use crate::core_state::Core;
use r4_base::Memory;
use r4_content::Command;
use r4_outside::{Device, Run};
use r4_ready::{Asked, Commit, CommitPlan, Parts, ask};
use std::alloc::Global;

impl<D: Device, R: Run> Core<D, R> {
    /// What becomes of a command, before anything changes but that the device is read. The only
    /// error is want of memory.
    pub fn asked(&mut self, alloc: Global, command: &Command) -> Result<Asked, Memory>
        requires sound { self.old.broken ≡ None }
        requires paths { HasBytePaths command.now }
        ensures device { LeavesDevice (D.state self.old.dev) (D.state self.new.dev) }
        ensures same { self.new ≡ record self.old { dev = self.new.dev } }
        ensures asks { IfOk result (Asks (D.state self.old.dev) (D.state self.new.dev)
            (parts_of self.old) command.now) }
    {
        let parts = Parts {
            buffer: &self.buffer,
            locks: &self.locks,
            atoms: &self.atoms,
            root: self.tree,
            blocks: self.volume.super40.block_count,
            plan: plan_in(&self.commit),
        };
        ask(alloc, &mut self.dev, &parts, command)
    }
}

// The plan of the commit under way, if it has one.
fn plan_in(commit: &Option<Commit>) -> Option<&CommitPlan>
    ensures { option_map (λ p. p.now) result ≡ plan_of commit.now }
{
    commit.as_ref()?.work.as_ref()
}
