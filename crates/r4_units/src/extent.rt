//! What stands in an extent (docs/volume.md, "Cells").

ghost use Rattle.std.specs.Prelude.{◌≡◌, ◌^◌, ◌≤◌, ◌<◌, ◌+◌, ◌*◌, ◌==◌, if◌then◌else◌, length, true, None, IfSome, IfNone};
ghost use Rattle.r4_base.specs.Extents.{AreLawfulUnits, IsLawfulUnit, blocks_in, body_fault, units_of};
ghost use Rattle.r4_twig.specs.View.{view_units};
ghost use Rattle.r4_units.specs.Extent.{IsUnitAt};

use r4_base::Unit;
use r4_node40::ItemView;
use r4_twig::ExtentView;

/// The block that is so many blocks behind the beginning of an extent, as a unit of one block; none behind its end
/// (docs/volume.md, "Cells").
pub fn unit_of(item: &ItemView<'_>, block: u64) -> Option<Unit>
    requires few { length item.now.body.now < 16 * 65536 }
    requires good { body_fault true (2 ^ 64) item.now.body.now ≡ None }
    ensures some { IfSome result (λ u. IsUnitAt (units_of item.now.body.now) block u) }
    ensures none { IfNone result (blocks_in (units_of item.now.body.now) ≤ block) }
{
    unit_at(&ExtentView::of_item(item.body), block)
}

// The block that is so many blocks behind the beginning of units.
fn unit_at(extent: &ExtentView<'_>, block: u64) -> Option<Unit>
    requires { AreLawfulUnits true (2 ^ 64) (view_units extent.now) }
    ensures some { IfSome result (λ u. IsUnitAt (view_units extent.now) block u) }
    ensures none { IfNone result (blocks_in (view_units extent.now) ≤ block) }
{
    let mut left = block;
    for i in 0..extent.len() {
        let unit = extent.unit(i);
        if left < unit.width {
            return Some(one_block(unit, left));
        }
        left -= unit.width;
    }
    None
}

// A block of a unit.
fn one_block(unit: Unit, block: u64) -> Unit
    requires lawful { IsLawfulUnit true (2 ^ 64) unit }
    requires within { block < unit.width }
    ensures start { result.start ≡ (if unit.start == 0 then 0 else (unit.start + block)) }
    ensures width { result.width ≡ 1 }
{
    if unit.start == 0 {
        return Unit { start: 0, width: 1 };
    }
    Unit {
        start: unit.start + block,
        width: 1,
    }
}
