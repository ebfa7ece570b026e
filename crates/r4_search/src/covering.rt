//! The path from the root down to the node whose range has a key.

ghost use Rattle.std.specs.Prelude.{◌≡◌, ◌<◌, ◌≤◌, All, map, IfOk, IfErr};
ghost use Rattle.std.specs.Arc.{arc_value};
ghost use Rattle.r4_base.specs.Key.{rank, least, top};
ghost use Rattle.r4_search.specs.Pool.{IsKnown, IsMet, IsOf, Goes, LeavesDevice};
ghost use Rattle.r4_search.specs.Path.{IsPath, KeepsOnly, KnowsOn, MeetsOn, Stops, root_name};
ghost use Rattle.r4_search.specs.Place.{child_name};

use crate::inside::{Child, child_of};
use crate::pool::{FetchFault, Pool};
use r4_base::Key;
use r4_cell::{Cell, Root, least, top};
use std::alloc::Global;
use std::sync::Arc;

/// The cells from the root down to the node whose range has the key: a leaf, or the twig where the key lies in the range
/// of an extent (docs/volume.md, "The tree"). Each is the one that the pool keeps, or of the block that its name means, and
/// what the pool keeps from then on is among them; so is what it met. What the last one names can be asked for. `Read`
/// and `Damaged` name the block that such cells lead to and that is refused; `Read` comes only where the count of faults
/// rose. Also after an error what the pool keeps or met from then on is among cells that lead down from the root.
pub fn cover<P: Pool>(
    alloc: Global,
    pool: &mut P,
    root: &Root,
    key: &Key,
) -> Result<Vec<Arc<Cell>>, FetchFault>
    requires some { 1 ≤ root.now.height }
    requires known { IsKnown (P.state pool.old) (root_name root.now) }
    requires from { least ≤ rank key.now }
    requires below { rank key.now < top }
    ensures goes { Goes (P.state pool.old) (P.state pool.new) }
    ensures device { LeavesDevice (P.device pool.old) (P.device pool.new) }
    ensures path { IfOk result (λ path. IsPath root.now (rank key.now) (map (λ cell. arc_value cell) path.items)) }
    ensures are_of { IfOk result (λ path. All (IsOf (P.state pool.old)) (map (λ cell. arc_value cell) path.items)) }
    ensures only { IfOk result (λ path. KeepsOnly (P.state pool.old) (P.state pool.new) (map (λ cell. arc_value cell) path.items)) }
    ensures meets { MeetsOn root.now (rank key.now) (P.state pool.old) (P.state pool.new) }
    ensures met { IfOk result (λ path. All (IsMet (P.state pool.new))
        (map (λ cell. arc_value cell) path.items)) }
    ensures knows { IfOk result (λ path. KnowsOn (P.state pool.new) (map (λ cell. arc_value cell) path.items)) }
    ensures err { IfErr result (λ e. Stops root.now (rank key.now) (P.state pool.old) e (P.state pool.new)) }
{
    let mut path = Vec::new(alloc);
    let mut next = Some(root_of(root));
    while let Some(child) = next {
        let cell = pool.fetch(alloc, child.id, child.level, child.lo, child.hi)?;
        next = child_of(&cell, key);
        path.push(cell)?;
    }
    Ok(path)
}

// The root as it is asked for.
fn root_of(root: &Root) -> Child
    ensures { child_name result ≡ root_name root.now }
{
    Child {
        id: root.id,
        level: root.height,
        lo: least(),
        hi: top(),
    }
}
