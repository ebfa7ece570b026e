//! A twig that is packed anew (docs/volume.md, "Edits").

ghost use Rattle.std.specs.Prelude.{◌≡◌, ◌++◌, ◌^◌, ◌≤◌, ℕ, List, map, IfOk};
ghost use Rattle.std.specs.Arc.{arc_value};
ghost use Rattle.r4_base.specs.Key.{rank};
ghost use Rattle.r4_base.specs.Tree.{Root as TreeRoot, Store};
ghost use Rattle.r4_base.specs.Value.{Value};
ghost use Rattle.r4_graft.specs.r4_branch.Pieces.{AreTwigPieces};
ghost use Rattle.r4_patch.specs.r4_cell.Patch.{IsChange, patch_of};
ghost use Rattle.r4_patch.specs.r4_cell.Seen.{CellSeen};
ghost use Rattle.r4_patch.specs.Part.{MeetsPart};
ghost use Rattle.r4_path.specs.Grafts.{AreTwigsOf, GraftsAt, GraftsBelow, IsGraftBelowIn, IsGraftIn};
ghost use Rattle.r4_path.specs.Steps.{OnlyTakes};

use crate::ascent::rise;
use crate::below::with_below;
use crate::twigs::twig_level;
use r4_base::{Memory, get32};
use r4_graft::{Twig, TwigPiece, pack_twigs};
use r4_patch::{Cell, Change, Fresh};
use std::alloc::Global;
use std::sync::Arc;

/// The change that puts twigs of these pieces in the place of the last cell of a path, a twig. The path goes from the top
/// down, and the pieces are those for the twig's range, of at most 16000 bytes. Where they need more than 4068 bytes, more
/// twigs come, at most one for each 1024 bytes that are too many or a part of these; the path has the cells above that their
/// pointers may ask for, as for `split`. It takes a fresh number for each cell that comes, and there is one for each twig
/// that may come, one for each cell of the path and one more. On `Memory` numbers may have been taken (docs/volume.md,
/// "Edits").
pub fn graft(
    alloc: Global,
    path: &[Arc<Cell>],
    pieces: &[TwigPiece],
    fresh: &mut Fresh,
) -> Result<Change, Memory>
    requires path { (t : Store Value) × ((r : TreeRoot) × IsGraftIn t r (map (λ c. arc_value c) path.now) pieces.now fresh.old) }
    requires numbers { 2 ^ 63 ≤ fresh.old.next }
    ensures grafts { IfOk result (λ c. GraftsAt (map (λ x. arc_value x) path.now) pieces.now fresh.old fresh.new c) }
    ensures numbers { OnlyTakes fresh.old fresh.new }
{
    let count = path.len() - 1;
    prove!(fresh.next < fresh.end);
    let twig = &path[count];
    let twigs = twigs_of(alloc, twig, pieces)?;
    let lowest = twig_level(alloc, twig, twigs, fresh)?;
    rise(alloc, &path[..count], lowest, fresh)
}

/// The change that packs the last cell of a path anew, as `graft` does, while cells below it go and others come. With data
/// blocks that the pieces name behind its new cells it is a patch (docs/volume.md, "Edits").
pub fn graft_below(
    alloc: Global,
    path: &[Arc<Cell>],
    pieces: &[TwigPiece],
    old: Vec<Arc<Cell>>,
    new: Vec<Arc<Cell>>,
    fresh: &mut Fresh,
) -> Result<Change, Memory>
    requires path { (t : Store Value) × ((r : TreeRoot) × IsGraftIn t r (map (λ c. arc_value c) path.now) pieces.now fresh.old) }
    requires numbers { 2 ^ 63 ≤ fresh.old.next }
    ensures change { IfOk result (λ c. (t : Store Value) (r : TreeRoot) (blocks : List CellSeen) (first : ℕ)
        → IsGraftBelowIn t r (map (λ x. arc_value x) path.now) pieces.now
        (record { old = map (λ x. arc_value x) old.items; new = map (λ x. arc_value x) new.items }) blocks first fresh.old
        → IsChange c.old (c.new ++ blocks) c.root) }
    ensures meets { IfOk result (λ c. (t : Store Value) (r : TreeRoot) (blocks : List CellSeen) (first : ℕ)
        → IsGraftBelowIn t r (map (λ x. arc_value x) path.now) pieces.now
        (record { old = map (λ x. arc_value x) old.items; new = map (λ x. arc_value x) new.items }) blocks first fresh.old
        → MeetsPart (patch_of c.old (c.new ++ blocks) c.root) t r) }
    ensures grafts { IfOk result (λ c.
        GraftsBelow (map (λ x. arc_value x) path.now) pieces.now
        (record { old = map (λ x. arc_value x) old.items; new = map (λ x. arc_value x) new.items }) fresh.old fresh.new c) }
    ensures numbers { OnlyTakes fresh.old fresh.new }
{
    let change = graft(alloc, path, pieces, fresh)?;
    with_below(old, new, &change)
}

/// The twigs that a twig becomes where it has these pieces.
fn twigs_of(alloc: Global, twig: &Cell, pieces: &[TwigPiece]) -> Result<Vec<Twig>, Memory>
    requires { AreTwigPieces (rank twig.now.lo) (rank twig.now.hi) pieces.now }
    ensures { IfOk result (λ v. AreTwigsOf twig.now pieces.now v.items) }
{
    let mkfs_id = get32(twig.block().bytes(), 12);
    pack_twigs(alloc, twig.lo(), mkfs_id, pieces)
}
