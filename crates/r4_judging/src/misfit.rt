//! Cells that are named as others than they are, and which of them comes first.

ghost use Rattle.std.specs.Prelude.{◌≡◌, ◌==◌, nat_lt};
ghost use Rattle.r4_judging.specs.Judging.{fault_turn, first_of, turn_of};

use r4_base::{BlockNo, CellFault, Key};

/// A cell that was met, by its block, its level and its first key, and why it is not the one that a name of another
/// cell means: `Level`, else `Range` at item 0 (docs/volume.md, "Reach").
#[derive(Clone, Copy, Debug, PartialEq, Eq)]
pub struct Misfit {
    pub block: BlockNo,
    pub level: u8,
    pub lo: Key,
    pub fault: CellFault,
}

/// The one that comes first: by level from the root, then by range; another level comes before another range.
pub(crate) fn first_of(one: Option<Misfit>, other: Option<Misfit>) -> Option<Misfit>
    ensures { result ≡ first_of one other }
{
    match (one, other) {
        (None, found) => found,
        (Some(found), None) => Some(found),
        (Some(former), Some(latter)) => {
            if comes_before(latter, former) {
                Some(latter)
            } else {
                Some(former)
            }
        }
    }
}

// Whether the turn of one is before that of the other.
fn comes_before(one: Misfit, other: Misfit) -> bool
    ensures { result ≡ nat_lt (turn_of one) (turn_of other) }
{
    if one.level != other.level {
        return other.level < one.level;
    }
    if !one.lo.is_same(other.lo) {
        return one.lo.is_below(other.lo);
    }
    is_of_level(one.fault) && !is_of_level(other.fault)
}

// Whether a fault is that of another level.
fn is_of_level(fault: CellFault) -> bool
    ensures { result ≡ (fault_turn fault == 0) }
{
    matches!(fault, CellFault::Level)
}
