//! What was seen, to which more comes as it is asked for.

ghost use Rattle.std.specs.Prelude.{◌≡◌, ◌+◌, ◌∷◌, IfErr, OnErr, OnOk};
ghost use Rattle.r4_base.specs.Key.{rank};
ghost use Rattle.r4_content.specs.Held.{interval_of, pairs_of};
ghost use Rattle.r4_content.specs.Seen.{Rises};
ghost use Rattle.r4_outside.specs.Device.{State};
ghost use Rattle.r4_gather.specs.Asking.{EndsIn, IsCause, IsLater, Over, Sighting, StaysOver};

use r4_base::Key;
use r4_content::{Interval, Seen};
use r4_search::FetchFault;
use std::alloc::Global;

/// What was asked for: what stands at a key, or all that stands in an interval of keys.
#[derive(Clone, Copy, Debug, PartialEq, Eq)]
pub enum Asked {
    Key(Key),
    Within(Interval),
}

/// What was seen of a content, to which more comes as it is asked for (docs/commands.md, "Asking").
/// What was seen at a key that was asked for stays, and so does the tree; nothing is written. Where
/// a call ends with a fault, the interval may be among those that were asked for, and what stands
/// there is not known; the fault is the one with which the look-up ended, or want of memory.
pub trait Sight {
    /// What was seen, what was asked for, the newest first, and the fault with which a look-up ended last.
    ghost state: { Self → Sighting };

    /// Of which tree it is seen, and over which pool.
    ghost over: { Self → Over };

    /// What the device of that pool tells of itself.
    ghost device: { Self → State };

    /// What was seen so far.
    fn parts(&self) -> &Seen
        ensures same { pairs_of result.now ≡ (state self.now).seen }
        ensures rises { Rises (pairs_of result.now) };

    /// What stands at a key is asked for.
    fn see(&mut self, alloc: Global, key: Key) -> Result<(), FetchFault>
        ensures later { IsLater (state self.old) (state self.new) }
        ensures stays { StaysOver (device self.old) (device self.new) (over self.old) (over self.new) }
        ensures kept { OnOk result ((state self.new).fault ≡ (state self.old).fault) }
        ensures cause { IfErr result (λ e. IsCause e (state self.new)) }
        ensures asked { OnOk result
            ((state self.new).asked ≡ (rank key, rank key + 1) ∷ (state self.old).asked) }
        ensures stops { OnErr result
            (EndsIn (state self.new).asked ((rank key, rank key + 1) ∷ (state self.old).asked)) };

    /// All that stands in an interval of keys is asked for.
    fn see_all(&mut self, alloc: Global, within: Interval) -> Result<(), FetchFault>
        ensures later { IsLater (state self.old) (state self.new) }
        ensures stays { StaysOver (device self.old) (device self.new) (over self.old) (over self.new) }
        ensures kept { OnOk result ((state self.new).fault ≡ (state self.old).fault) }
        ensures cause { IfErr result (λ e. IsCause e (state self.new)) }
        ensures asked { OnOk result
            ((state self.new).asked ≡ interval_of within ∷ (state self.old).asked) }
        ensures stops { OnErr result
            (EndsIn (state self.new).asked (interval_of within ∷ (state self.old).asked)) };
}
