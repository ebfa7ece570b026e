//! Where a body stands, told by one of its keys.

ghost use Rattle.std.specs.Prelude.{◌≡◌, ◌+◌, ◌<◌, ◌≤◌, ℕ, IfErr, IfOk, length, true};
ghost use Rattle.r4_base.specs.Key.{least, rank, top};
ghost use Rattle.r4_content.specs.Edited.{is_between};
ghost use Rattle.r4_reaching.specs.r4_search.Path.{root_name};
ghost use Rattle.r4_reaching.specs.r4_search.Pool.{IsKnown, LeavesDevice};
ghost use Rattle.r4_reaching.specs.r4_touching.Touching.{StopsFor, Touches};
ghost use Rattle.r4_extent_reaching.specs.Telling.{IsKindTold};

use r4_base::Key;
use r4_content::Interval;
use r4_extent_touching::{key_after, stretch_from};
use r4_reaching::{FetchFault, Pool, Root, touch};
use std::alloc::Global;

/// Whether a body stands in extents, told by a key of its: not where the key lies in a leaf; and in the range of an
/// extent just where a block or a hole has it. The cells on the way to the key are met, and the block with it, if there
/// is one. `Read` and `Damaged` name a block on the way (docs/volume.md, "Reach").
pub fn stands_in_extents<P: Pool>(
    alloc: Global,
    pool: &mut P,
    root: &Root,
    key: Key,
) -> Result<bool, FetchFault>
    requires some { 1 ≤ root.now.height }
    requires known { IsKnown (P.state pool.old) (root_name root.now) }
    requires keeps { (level : ℕ) → (P.state pool.old).keeps level ≡ true }
    requires from { least ≤ rank key }
    requires below { rank key < top }
    ensures device { LeavesDevice (P.device pool.old) (P.device pool.new) }
    ensures touches { Touches root.now (is_between (rank key) (rank key + 1)) (P.state pool.old)
        (P.state pool.new) }
    ensures told { IfOk result (IsKindTold (P.state pool.new) (rank key)) }
    ensures err { IfErr result (λ e. StopsFor (is_between (rank key) (rank key + 1))
        (P.state pool.old) e (P.state pool.new)) }
{
    let behind = key_after(key, 1);
    if touch(
        alloc,
        pool,
        root,
        &[Interval {
            from: key,
            to: behind,
        }],
    )? {
        return Ok(false);
    }
    let stretch = stretch_from(alloc, pool, root, key, behind)?;
    Ok(stretch.parts.as_slice().len() > 0)
}
