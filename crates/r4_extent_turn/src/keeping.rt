//! What stays of leaves in whose range an extent comes (docs/volume.md, "Bodies in extents").

ghost use Rattle.std.specs.Prelude.{◌≡◌, ℕ, ◌+◌, ◌<◌, ◌≤◌, Contains, IfOk, ◌==◌, map};
ghost use Rattle.std.specs.Prelude.{if◌then◌else◌};
ghost use Rattle.std.specs.Arc.{arc_value};
ghost use Rattle.std.specs.Option.{option_map};
ghost use Rattle.r4_base.specs.Key.{rank};
ghost use Rattle.r4_base.specs.Value.{Value};
ghost use Rattle.r4_extent_build.specs.r4_cell.Seen.{node_of};
ghost use Rattle.r4_extent_build.specs.r4_edit.LeafParts.{HasRight};
ghost use Rattle.r4_extent_build.specs.r4_extent_edit.Turning.{AreEnds};
ghost use Rattle.r4_extent_turn.specs.Keeping.{KeepsEnds};
ghost use Rattle.r4_extent_turn.specs.Turning.{Turn, leaves_of};

use r4_base::{Key, Memory};
use r4_build::{LeafParts, left_part, right_part};
use r4_extent_build::{Cell, Fresh};
use std::alloc::Global;
use std::sync::Arc;

/// What stays of leaves where the keys from one on and below another go: what the first one has
/// below the first key, under its own number, and what the last one has from the other on, under
/// one of the next two numbers. Both are taken.
pub(crate) fn ends_kept(
    alloc: Global,
    leaves: &[Arc<Cell>],
    from: &Key,
    to: &Key,
    fresh: &mut Fresh,
) -> Result<LeafParts, Memory>
    requires ends { AreEnds (map (λ c. arc_value c) leaves.now) (rank from.now) (rank to.now) }
    requires numbers { fresh.old.next + 2 ≤ fresh.old.end }
    ensures { IfOk result (λ p. (x : Turn) → map (λ c. arc_value c) leaves.now ≡ leaves_of x
        → KeepsEnds x from.now to.now fresh.old fresh.new
        (option_map (λ c. arc_value c) p.left) (option_map (λ c. arc_value c) p.right)) }
{
    let left = left_part(alloc, &leaves[0], from)?;
    let mut own = Fresh {
        next: number_beside(&leaves[0], fresh),
        end: fresh.end,
    };
    let right = right_of(alloc, &leaves[leaves.len() - 1], to, &mut own)?;
    fresh.next += 2;
    Ok(LeafParts { left, right })
}

// The next number, or the one behind it where the leaf has that one. (No cell that stands has it;
// so the callers need not say so.)
fn number_beside(leaf: &Cell, fresh: &Fresh) -> u64
    requires { fresh.now.next + 2 ≤ fresh.now.end }
    ensures { result
        ≡ if leaf.now.id == fresh.now.next then fresh.now.next + 1 else fresh.now.next }
{
    let _end = fresh.end;
    if leaf.id().0 == fresh.next {
        fresh.next + 1
    } else {
        fresh.next
    }
}

// The part of a leaf from a key behind its first one on, where a unit has that key or one behind
// it.
fn right_of(
    alloc: Global,
    leaf: &Cell,
    key: &Key,
    fresh: &mut Fresh,
) -> Result<Option<Arc<Cell>>, Memory>
    requires level { leaf.now.level ≡ 1 }
    requires from { rank leaf.now.lo < rank key.now }
    requires to { rank key.now ≤ rank leaf.now.hi }
    requires units { (k : ℕ) (v : Value) → Contains (node_of leaf.now).units (k, v)
        → k < rank leaf.now.hi }
    requires number { fresh.old.next < fresh.old.end }
    ensures { IfOk result (λ o. HasRight leaf.now key.now fresh.old.next
        (option_map (λ c. arc_value c) o)) }
{
    if key.is_same(leaf.hi()) {
        return Ok(None);
    }
    right_part(alloc, leaf, key, fresh)
}
