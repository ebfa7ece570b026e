//! The bodies of items that name cells, under the new names (docs/layout.md, "Items").

ghost use Rattle.std.specs.Prelude.{◌≡◌, ◌≢◌, ◌+◌, ◌*◌, ◌<◌, ◌≤◌, length, map, true, false};
ghost use Rattle.std.specs.Ordering.{nat_cmp};
ghost use Rattle.std.specs.BTreeMap.{get};
ghost use Rattle.std.specs.Option.{option_map};
ghost use Rattle.r4_base.specs.Extents.{pointer_of, unit_at, units_of};
ghost use Rattle.r4_node40.specs.View.{item_shown};
ghost use Rattle.r4_flush.specs.Anew.{BecomeBlocks, IsItemAnew, new_name, unit_anew};

use crate::names::{Names, new_name};
use r4_base::{BlockNo, EXTENT, POINTER, Unit, get64};
use r4_node40::ItemView;
use r4_twig::{pointer, put_pointer, replace};

/// Writes the new names into a body of an item of the plugin.
pub(crate) fn rename_body(plugin: u16, body: &mut [u8], names: &Names)
    requires names { BecomeBlocks (new_name (get nat_cmp names.now)) }
    requires short { length body.old ≤ 4096 }
    ensures long { length body.new ≡ length body.old }
    ensures pointer { plugin ≡ 3 → pointer_of body.new ≡ option_map (new_name
        (get nat_cmp names.now)) (pointer_of body.old) }
    ensures extent { plugin ≡ 5 → units_of body.new ≡ map (unit_anew (new_name
        (get nat_cmp names.now))) (units_of body.old) }
    ensures other { plugin ≢ 3 → plugin ≢ 5 → body.new ≡ body.old }
{
    match plugin {
        POINTER => rename_pointer(body, names),
        EXTENT => rename_units(body, names),
        _ => {}
    }
}

// Writes the new name into a pointer's body; one that names nothing stays.
fn rename_pointer(body: &mut [u8], names: &Names)
    requires { BecomeBlocks (new_name (get nat_cmp names.now)) }
    ensures long { length body.new ≡ length body.old }
    ensures pointer { pointer_of body.new ≡ option_map (new_name (get nat_cmp names.now))
        (pointer_of body.old) }
{
    if let Some(to) = pointer(body) {
        put_pointer(body, BlockNo(new_name(names, to.0)));
    }
}

// Writes the new names into the units of an extent's body.
fn rename_units(body: &mut [u8], names: &Names)
    requires { length body.old ≤ 4096 }
    ensures long { length body.new ≡ length body.old }
    ensures units { units_of body.new ≡ map (unit_anew (new_name (get nat_cmp names.now)))
        (units_of body.old) }
{
    let count = (body.len() / UNIT) as u16;
    for i in 0..count {
        let unit = renamed_unit(unit_in(body, i), names);
        replace(body, i, &unit);
    }
}

// How many bytes a unit has.
const UNIT: usize = 16;

// Unit `i` of a body.
fn unit_in(body: &[u8], i: u16) -> Unit
    requires { 16 * i + 16 ≤ length body.now }
    ensures { result ≡ unit_at body.now i }
{
    let at = UNIT * usize::from(i);
    Unit {
        start: get64(body, at),
        width: get64(body, at + 8),
    }
}

// A unit of one block under that block's new name; a wider one as it is.
fn renamed_unit(unit: Unit, names: &Names) -> Unit
    ensures { result ≡ unit_anew (new_name (get nat_cmp names.now)) unit }
{
    if unit.width != 1 {
        return unit;
    }
    Unit {
        start: new_name(names, unit.start),
        width: unit.width,
    }
}

/// Whether an item names one that gets another name.
pub(crate) fn names_other(item: &ItemView<'_>, names: &Names) -> bool
    requires { length item.now.body.now ≤ 4096 }
    ensures { result ≡ false → IsItemAnew (new_name (get nat_cmp names.now))
        (item_shown item.now) (item_shown item.now) }
{
    match item.plugin {
        POINTER => points_to_other(item.body, names),
        EXTENT => has_other(item.body, names),
        _ => false,
    }
}

// Whether a pointer names one that gets another name.
fn points_to_other(body: &[u8], names: &Names) -> bool
    ensures { result ≡ false → option_map (new_name (get nat_cmp names.now))
        (pointer_of body.now) ≡ pointer_of body.now }
{
    match pointer(body) {
        Some(to) => new_name(names, to.0) != to.0,
        None => false,
    }
}

// Whether some unit of an extent gets another name.
fn has_other(body: &[u8], names: &Names) -> bool
    requires { length body.now ≤ 4096 }
    ensures { result ≡ false → map (unit_anew (new_name (get nat_cmp names.now)))
        (units_of body.now) ≡ units_of body.now }
{
    for i in 0..(body.len() / UNIT) as u16 {
        let unit = unit_in(body, i);
        if renamed_unit(unit, names) != unit {
            return true;
        }
    }
    false
}
