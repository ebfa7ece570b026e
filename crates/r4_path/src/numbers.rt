//! Numbers of new nodes.

ghost use Rattle.std.specs.Prelude.{◌≡◌, ◌+◌, ◌<◌};

use r4_base::NodeId;
use r4_patch::Fresh;

/// The next number for a new node.
pub fn take_number(fresh: &mut Fresh) -> NodeId
    requires { fresh.old.next < fresh.old.end }
    ensures number { result.0 ≡ fresh.old.next }
    ensures next { fresh.new ≡ record fresh.old { next = fresh.old.next + 1 } }
{
    prove!(fresh.next < fresh.end);
    let id = NodeId(fresh.next);
    fresh.next += 1;
    id
}
