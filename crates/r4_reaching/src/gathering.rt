//! The cells that were met, in order.

ghost use Rattle.std.specs.Prelude.{◌≡◌, ◌↔◌, IfOk, map, nat_eq};
ghost use Rattle.std.specs.Arc.{arc_value};
ghost use Rattle.std.specs.List.{IsDistinct};
ghost use Rattle.std.specs.Map.{keys_of, values_of};
ghost use Rattle.r4_search.specs.Keeping.{met_in};
ghost use Rattle.r4_spared.specs.r4_work.Order.{AreInOrder};
ghost use Rattle.r4_reaching.specs.Gathering.{AreAllMet, HaveNumbers};

use r4_base::Memory;
use r4_cell::Cell;
use r4_spared::by_place;
use std::alloc::Global;
use std::collections::HashMap;
use std::sync::Arc;

/// The cells that a pool has met, each once, in the order of their levels, the lowest first, and within a level of the
/// keys with which they begin. They are shared, and no block is copied. For n cells it takes n log n steps. The only
/// error is want of memory (docs/volume.md, "Reach").
pub fn in_order(alloc: Global, met: &HashMap<u64, Arc<Cell>>) -> Result<Vec<Arc<Cell>>, Memory>
    requires numbers { HaveNumbers (met_in met.now.entries) }
    ensures all { IfOk result (λ v.
        AreAllMet (met_in met.now.entries) (map (λ c. arc_value c) v.items)) }
    ensures order { IfOk result (λ v. AreInOrder (map (λ c. arc_value c) v.items)) }
{
    let mut cells = shared(alloc, met)?;
    cells.sort_unstable_by(|a, b| by_place(a, b));
    Ok(cells)
}

// The cells that were met, as a further owner of them.
fn shared(alloc: Global, met: &HashMap<u64, Arc<Cell>>) -> Result<Vec<Arc<Cell>>, Memory>
    ensures cells { IfOk result (λ v. map (λ c. arc_value c) v.items
        ≡ map (λ c. arc_value c) (values_of met.now.entries)) }
    ensures unique { IfOk result (λ v. IsDistinct nat_eq (keys_of met.now.entries)) }
{
    let mut cells = Vec::with_capacity(alloc, met.len())?;
    for cell in met.values() {
        cells.push(Arc::try_clone(cell)?)?;
    }
    Ok(cells)
}
