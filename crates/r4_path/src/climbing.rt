//! From the new cells of a level to those of the level above (docs/volume.md, "Edits").

ghost use Rattle.std.specs.Prelude.{◌≡◌, ℕ, ◌<◌, ◌≤◌, drop, length, map, option_map, reverse, slice_get, Some, IfOk};
ghost use Rattle.std.specs.Arc.{arc_value};
ghost use Rattle.r4_base.specs.Key.{rank};
ghost use Rattle.r4_base.specs.Node.{Item};
ghost use Rattle.r4_leaf.specs.r4_node40.View.{view_items};
ghost use Rattle.r4_path.specs.Levels.{CanClimb, Climbed, IsStepOver, IsUnder, step_of};
ghost use Rattle.r4_path.specs.Steps.{OnlyTakes};

use crate::growing::root_over;
use crate::level::Level;
use crate::row::Row;
use crate::sharing::share;
use r4_base::{Key, Memory, get32};
use r4_leaf::NodeView;
use r4_patch::{Cell, Cells, Fresh};
use std::alloc::Global;
use std::sync::Arc;

/// The levels of a change from one on, where the cells above it are those of a path, given from the top down. They are put
/// behind the levels that there are. Answers the new root, where there is one: over a root that is parted in two.
pub fn climb(
    alloc: Global,
    above: &[Arc<Cell>],
    level: Level,
    fresh: &mut Fresh,
    levels: &mut Vec<Level>,
) -> Result<Option<Arc<Cell>>, Memory>
    requires { CanClimb (step_of level) (reverse (map (λ c. arc_value c) above.now)) fresh.old }
    ensures climbed { IfOk result (λ over.
        Climbed (step_of level) (reverse (map (λ c. arc_value c) above.now)) fresh.old fresh.new
        (map step_of levels.old.items) (map step_of levels.new.items) (option_map (λ c. arc_value c) over)) }
    ensures numbers { OnlyTakes fresh.old fresh.new }
{
    if level.new.as_slice().len() == 1 {
        levels.push(level)?;
        return Ok(None);
    }
    let count = above.len();
    if count == 0 {
        let root = root_over(alloc, level.new.as_slice(), level.old.level(), fresh)?;
        levels.push(level)?;
        return Ok(Some(root));
    }
    let next = over(alloc, &above[count - 1], &level, fresh)?;
    levels.push(level)?;
    climb(alloc, &above[..count - 1], next, fresh, levels)
}

/// The cells in the place of a parent, where new cells stand below it in the place of one that it names.
pub fn over(
    alloc: Global,
    parent: &Arc<Cell>,
    below: &Level,
    fresh: &mut Fresh,
) -> Result<Level, Memory>
    requires under { IsUnder (step_of below.now) (arc_value parent.now) }
    requires number { fresh.old.next < fresh.old.end }
    ensures step { IfOk result (λ l. IsStepOver (step_of below.now) (arc_value parent.now) fresh.old fresh.new (step_of l)) }
    ensures numbers { OnlyTakes fresh.old fresh.new }
{
    let node = parent.node();
    let at = place_of(&node, below.old.lo());
    let row = Row {
        node,
        mkfs_id: get32(parent.block().bytes(), 12),
        at,
        more: further(&below.new),
    };
    let new = share(alloc, &row, parent, fresh)?;
    Ok(Level {
        old: Arc::try_clone(parent)?,
        new,
    })
}

/// All cells but the first.
fn further(cells: &Cells) -> &[Arc<Cell>]
    requires { 1 ≤ length cells.now }
    ensures { map (λ c. arc_value c) result.now ≡ drop 1 cells.now }
{
    &cells.as_slice()[1..]
}

/// The place of the first item whose key is not below this one.
fn place_of(node: &NodeView<'_>, key: Key) -> u16
    ensures below { (k : ℕ) (x : Item) → k < result → slice_get (view_items node.now) k ≡ Some x → rank x.key < rank key }
    ensures at { (x : Item) → slice_get (view_items node.now) result ≡ Some x → rank key ≤ rank x.key }
{
    for i in 0..node.len() {
        if !node.item(i).key.is_below(key) {
            return i;
        }
    }
    node.len()
}
