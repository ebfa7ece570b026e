//! One unit of an extent (docs/layout.md, "Items").

ghost use Rattle.std.specs.Prelude.{◌≡◌, ◌+◌, ◌*◌, ◌^◌, ◌<◌, ◌≤◌, length};
ghost use Rattle.r4_base.specs.Extents.{continues, unit_at, unit_past};

use r4_base::{UNPLACED, Unit, get64};

/// How many bytes a unit has.
pub(crate) const UNIT: usize = 16;

/// Unit `i` of a body.
pub(crate) fn unit_in(body: &[u8], i: usize) -> Unit
    requires { 16 * i + 16 ≤ length body.now }
    ensures { result ≡ unit_at body.now i }
{
    Unit {
        start: get64(body, UNIT * i),
        width: get64(body, UNIT * i + 8),
    }
}

/// Whether the second unit goes on where the first one ends: two holes, or two runs.
pub(crate) fn continues(left: &Unit, right: &Unit) -> bool
    ensures { result ≡ continues left.now right.now }
{
    if left.start == 0 {
        return right.start == 0;
    }
    right.start < UNPLACED && right.start.checked_sub(left.start) == Some(left.width)
}

/// A unit's blocks from the one at place `width` on: what is left of a hole is a hole.
pub(crate) fn unit_past(unit: &Unit, width: u64) -> Unit
    requires inside { width ≤ unit.now.width }
    requires fits { unit.now.start + width < 2 ^ 64 }
    ensures { result ≡ unit_past width unit.now }
{
    let start = if unit.start == 0 {
        0
    } else {
        unit.start + width
    };
    Unit {
        start,
        width: unit.width - width,
    }
}
