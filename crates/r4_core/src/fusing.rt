//! Atoms fuse.

ghost use Rattle.std.specs.Prelude.{◌≡◌, ◌≢◌, ◌+◌, ◌<◌, ◌≤◌, None, max, min};
ghost use Rattle.r4_atoms.specs.Atoms.{IsOpenAtom};
ghost use Rattle.r4_core.specs.FusingAll.{CanFuseAll};
ghost use Rattle.r4_others.specs.r4_history.Serving.{least_of};
ghost use Rattle.r4_others.specs.Others.{pairs_of};
ghost use Rattle.r4_ready.specs.r4_kept.History.{owed, owed_for_commit};
ghost use Rattle.r4_ready.specs.r4_taking.Fusing.{HasFused, HasFusedAll};

use crate::core_state::Core;
use r4_base::{AtomNo, NodeId};
use r4_others::Other;
use r4_outside::{Device, Run};
use r4_trace::Entry;

impl<D: Device, R: Run> Core<D, R> {
    /// Other open atoms, which rise, fuse one after another with a command's own one; the smaller of
    /// two names what they become. Answers what all of them became. No memory.
    pub fn fuse_all(&mut self, own: AtomNo, others: &[Other]) -> AtomNo
        requires { CanFuseAll self.old own.0 (pairs_of others.now) }
        ensures fused { HasFusedAll self.old own.0 (pairs_of others.now) self.new }
        ensures least { result.0 ≡ least_of own.0 (pairs_of others.now) }
    {
        let mut all = own;
        let mut rest = others;
        while let [other, later @ ..] = rest {
            all = self.fuse_two(all, other.atom, other.node);
            rest = later;
        }
        all
    }

    // Two open atoms become one, whichever of them is the smaller; answers it. No memory.
    fn fuse_two(&mut self, one: AtomNo, two: AtomNo, node: NodeId) -> AtomNo
        requires sound { self.old.broken ≡ None }
        requires one_open { IsOpenAtom self.old.atoms one.0 }
        requires two_open { IsOpenAtom self.old.atoms two.0 }
        requires differ { two.0 ≢ one.0 }
        requires room { owed self.old.turns + owed_for_commit self.old.commit + 1
            ≤ self.old.trace.spare }
        ensures kept { result.0 ≡ min one.0 two.0 }
        ensures fused { HasFused self.old self.new (record { 0 = min one.0 two.0 })
            (record { 0 = max one.0 two.0 }) node }
    {
        if one.0 < two.0 {
            self.fuse(one, two, node);
            one
        } else {
            self.fuse(two, one, node);
            two
        }
    }

    // Two open atoms become one, the smaller of the two, since a command of one of them reaches a
    // node of the other. No memory.
    pub(crate) fn fuse(&mut self, kept: AtomNo, gone: AtomNo, node: NodeId)
        requires sound { self.old.broken ≡ None }
        requires kept_open { IsOpenAtom self.old.atoms kept.0 }
        requires gone_open { IsOpenAtom self.old.atoms gone.0 }
        requires less { kept.0 < gone.0 }
        requires room { owed self.old.turns + owed_for_commit self.old.commit + 1
            ≤ self.old.trace.spare }
        ensures { HasFused self.old self.new kept gone node }
    {
        self.space.lawful();
        // Each object was made by an entry, so the sums of objects are numbers.
        let _ = self.trace.len();
        self.atoms.fuse(kept, gone);
        self.space.merge(kept, gone);
        self.trace.push(Entry::Fuse { kept, gone, node });
    }
}
