//! The blocks that cells get.

ghost use Rattle.std.specs.Prelude.{◌≡◌, ℕ, ◌++◌, map, IfOk, OnOk};
ghost use Rattle.std.specs.Arc.{arc_value};
ghost use Rattle.std.specs.Ordering.{nat_cmp};
ghost use Rattle.std.specs.BTreeMap.{get};
ghost use Rattle.r4_commit.specs.Places.{block_given, place_of, placed_cells};

use r4_base::{BlockNo, Memory};
use r4_place::{Cell, How, Placed};
use r4_wander::PlacedCell;
use std::alloc::Global;
use std::collections::BTreeMap;
use std::sync::Arc;

/// Which cell, by its name, gets which block; a cell that keeps its block has none here.
pub(crate) type Places = BTreeMap<u64, BlockNo>;

/// The blocks that the answers give.
pub(crate) fn read_places(alloc: Global, placed: &[Placed]) -> Result<Places, Memory>
    ensures { IfOk result (λ places. (name : ℕ) → get nat_cmp places name ≡ place_of placed.now name) }
{
    let mut places = BTreeMap::new(alloc);
    for answer in placed {
        if let Some(block) = block_given(answer.how) {
            places.insert(answer.node.0, block)?;
        }
    }
    Ok(places)
}

/// The block that an answer gives, where it gives one.
fn block_given(how: How) -> Option<BlockNo>
    ensures { result ≡ block_given how }
{
    match how {
        How::Fresh(block) | How::Relocate(block) => Some(block),
        How::Overwrite => None,
    }
}

/// The block that a cell gets, where it gets one.
pub(crate) fn place_of(places: &Places, cell: &Cell) -> Option<BlockNo>
    ensures { result ≡ get nat_cmp places.now cell.now.id }
{
    places.get(&cell.id().0).copied()
}

/// The cells that get a block, each with it.
pub(crate) fn place_cells(
    alloc: Global,
    cells: &[Arc<Cell>],
    places: &Places,
) -> Result<Vec<PlacedCell>, Memory>
    ensures { IfOk result (λ v. v.items ≡ placed_cells (get nat_cmp places.now) (map (λ cell. arc_value cell) cells.now)) }
{
    let mut made = Vec::new(alloc);
    for cell in cells {
        if let Some(at) = place_of(places, cell) {
            let cell = Arc::try_clone(cell)?;
            made.push(PlacedCell { at, cell })?;
        }
    }
    Ok(made)
}
