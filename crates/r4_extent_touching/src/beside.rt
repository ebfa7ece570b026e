//! The leaf directly left of blocks that go.

ghost use Rattle.std.specs.Prelude.{◌≡◌, ◌≤◌, ◌<◌, ℕ, IfErr, OnOk, length, true};
ghost use Rattle.r4_base.specs.Key.{rank};
ghost use Rattle.r4_base.specs.Node.{items_of};
ghost use Rattle.r4_marking.specs.r4_node40.View.{view_items};
ghost use Rattle.r4_marking.specs.r4_search.Pool.{Goes, KnowsNames, LeavesDevice};
ghost use Rattle.r4_extent_touching.specs.Holding.{AreLeftMet, AreLeftMetAt, MeetsLeft, StopsLeft};

use r4_base::Key;
use r4_marking::{FetchFault, NodeView, Pool, child_at};
use r4_touching::Cell;
use std::alloc::Global;

/// Meets the leaf that a twig names and that ends at a key, if there is one: where blocks go that begin at the key, it
/// takes up their range. `Read` and `Damaged` name its block (docs/volume.md, "Reach").
pub fn touch_left<P: Pool>(
    alloc: Global,
    pool: &mut P,
    twig: &Cell,
    at: &Key,
) -> Result<(), FetchFault>
    requires level { 2 ≤ twig.now.level }
    requires knows { KnowsNames (P.state pool.old) twig.now }
    requires keeps { (level : ℕ) → (P.state pool.old).keeps level ≡ true }
    ensures goes { Goes (P.state pool.old) (P.state pool.new) }
    ensures device { LeavesDevice (P.device pool.old) (P.device pool.new) }
    ensures only { MeetsLeft twig.now (rank at.now) (P.state pool.old) (P.state pool.new) }
    ensures met { OnOk result (AreLeftMet (P.state pool.new) twig.now (rank at.now)) }
    ensures err { IfErr result (λ e. StopsLeft twig.now (rank at.now) (P.state pool.old) e
        (P.state pool.new)) }
{
    let node = twig.node();
    for i in 0..node.len() {
        touch_left_at(alloc, pool, &node, twig, i, at)?;
    }
    Ok(())
}

// The same of the item at a place of the twig.
fn touch_left_at<P: Pool>(
    alloc: Global,
    pool: &mut P,
    node: &NodeView<'_>,
    twig: &Cell,
    place: u16,
    at: &Key,
) -> Result<(), FetchFault>
    requires items { view_items node.now ≡ items_of twig.now.block }
    requires level { 2 ≤ twig.now.level }
    requires within { place < length (view_items node.now) }
    requires knows { KnowsNames (P.state pool.old) twig.now }
    requires keeps { (level : ℕ) → (P.state pool.old).keeps level ≡ true }
    ensures goes { Goes (P.state pool.old) (P.state pool.new) }
    ensures device { LeavesDevice (P.device pool.old) (P.device pool.new) }
    ensures only { MeetsLeft twig.now (rank at.now) (P.state pool.old) (P.state pool.new) }
    ensures met { OnOk result (AreLeftMetAt (P.state pool.new) twig.now place (rank at.now)) }
    ensures err { IfErr result (λ e. StopsLeft twig.now (rank at.now) (P.state pool.old) e
        (P.state pool.new)) }
{
    let Some(child) = child_at(node, twig, place) else {
        return Ok(());
    };
    if !child.hi.is_same(*at) {
        return Ok(());
    }
    pool.fetch(alloc, child.id, child.level, child.lo, child.hi)?;
    Ok(())
}
