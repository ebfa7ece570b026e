//! What is wrong with an extent (docs/layout.md, "Items").

ghost use Rattle.std.specs.Prelude.{◌≡◌, ◌*◌, ◌<◌, ◌≤◌, length, not};
ghost use Rattle.r4_base.specs.Extents.{body_fault, is_out_of_range, unit_fault};

use crate::units::{UNIT, unit_in};
use r4_base::{BITMAP_BITS, ExtentFault, FIRST_PLACE, UNPLACED, Unit};

/// The first fault of a body, on a volume of `blocks` blocks.
#[tactic(auto, unfolding(r4_base::specs::Extents::body_fault))]
pub(crate) fn fault_of(body: &[u8], blocks: u64, in_memory: bool) -> Option<ExtentFault>
    requires { length body.now < 16 * 65536 }
    ensures { result ≡ body_fault in_memory blocks body.now }
{
    if body.is_empty() || body.len() % UNIT != 0 {
        return Some(ExtentFault::Length);
    }
    for i in 0..(body.len() / UNIT) as u16 {
        let unit = unit_in(body, usize::from(i));
        if let Some(fault) = fault_of_unit(&unit, i, blocks, in_memory) {
            return Some(fault);
        }
    }
    None
}

/// The first fault of unit `i`.
#[tactic(auto, unfolding(r4_base::specs::Extents::unit_fault))]
fn fault_of_unit(unit: &Unit, i: u16, blocks: u64, in_memory: bool) -> Option<ExtentFault>
    ensures { result ≡ unit_fault in_memory blocks i unit.now }
{
    if in_memory && unit.start >= UNPLACED && unit.width == 1 {
        return None;
    }
    if unit.start != 0 && unit.start < FIRST_PLACE {
        return Some(ExtentFault::Start(i));
    }
    if unit.width == 0 {
        return Some(ExtentFault::Width(i));
    }
    if unit.start != 0 && !is_in_range(unit, blocks) {
        return Some(ExtentFault::Range(i));
    }
    None
}

/// Whether the blocks of a run are blocks of the volume, and none is fixed: then none but its first is a multiple of
/// 32736, and its first is none either.
fn is_in_range(run: &Unit, blocks: u64) -> bool
    requires start { 22 ≤ run.now.start }
    requires some { 0 < run.now.width }
    ensures { result ≡ not (is_out_of_range blocks run.now) }
{
    if run.start > blocks || run.width > blocks - run.start {
        return false;
    }
    let last = run.start + run.width - 1;
    (run.start - 1) / BITMAP_BITS == last / BITMAP_BITS
}
