//! An atom that has taken up one committed cell: what is asked of a flush can be met.

ghost use Rattle.std.specs.Prelude.{ℕ};
ghost use Rattle.r4_base.specs.Value.{Content};
ghost use Rattle.r4_base.specs.Volume.{HasContent, root_of};
ghost use Rattle.r4_placed.specs.r4_cell.Seen.{CellSeen};
ghost use Rattle.r4_flushed.specs.Flushed.{IsSealedTo, MayStand};
ghost use Rattle.r4_placed.specs.Flushing.{Flushing, IsAtRest};
ghost use Rattle.r4_flushed.specs.Sample.{IsOfOne, took, with_one};

/// On any image where nothing is unflushed, and with its space, in which nothing is placed or deferred: an atom that
/// owns one committed cell and left it as it was is at rest (`rest`), and can be sealed (`sealed`).
pub fn one_cell_can_be_flushed()
    ensures rest { (n : ℕ) (work : Flushing) (m : Content) (c : HasContent n work.base m)
        (x : CellSeen)
        → IsOfOne work x c → IsAtRest n (with_one work x) m }
    ensures sealed { (n : ℕ) (work : Flushing) (m : Content) (c : HasContent n work.base m)
        (x : CellSeen) → IsOfOne work x c → MayStand x
        → IsSealedTo (took c.store (root_of c.super) m x.id work.atom)
        (with_one work x) c.store c.store
        c.store }
{}
