//! Whether a command's whole change may be made of the cells of its task, where its body stands in
//! extents and loses no blocks (docs/volume.md, "Bodies in extents").

ghost use Rattle.std.specs.Prelude.{◌≡◌, ◌&&◌, nat_lt, IfOk, Some, map, true};
ghost use Rattle.std.specs.Arc.{arc_value};
ghost use Rattle.std.specs.List.{list_all};
ghost use Rattle.r4_base.specs.declared.key.Key.{Key as KeySeen};
ghost use Rattle.r4_content.specs.Held.{edits_of};
ghost use Rattle.r4_extent_change.specs.r4_measure.r4_reach.Touched.{turns_out};
ghost use Rattle.r4_extent_change.specs.r4_extent_build.Growing.{IsGrowing};
ghost use Rattle.r4_twig_asks.specs.r4_extent_demands.Sizes.{AreExtentEdits, IsFirstKey, IsSizedBody};
ghost use Rattle.r4_extent_growth.specs.Growth.{MayGrow, may_grow};
ghost use Rattle.r4_extent_growth.specs.Lying.{is_whole, lie_in_leaves};
ghost use Rattle.r4_extent_growth.specs.Turning.{does_grow};

use crate::lying::{are_whole, have_room, lie_in_leaves};
use crate::twigs::may_turn_all;
use r4_base::{Key, Memory};
use r4_content::{Edits, Reply};
use r4_extent_change::{Cell, Fresh, without_bytes};
use r4_twig_asks::{SizedBody, gets_some};
use std::alloc::Global;
use std::sync::Arc;

/// Whether `change_of_growing` may be asked for the whole change of a command, as far as the cells
/// of its task tell it: its body stands in extents and loses no blocks, or had no bytes and comes
/// to extents; what is no byte lies in leaves among the cells, which have room for it; nothing
/// stands in their twigs where blocks come, and there are numbers enough. What it asks for beside
/// that is known of the part of a tree in which the cells stand, and of the budget
/// (`found_growths_can_be_made`). The only error is want of memory (docs/volume.md, "Bodies in
/// extents").
pub fn may_grow(
    alloc: Global,
    body: &SizedBody,
    edits: &Edits,
    cells: &[Arc<Cell>],
    fresh: &Fresh,
) -> Result<bool, Memory>
    requires { AreExtentEdits (Some body.now) (edits_of edits.now) }
    ensures exact { IfOk result (λ ok. ok ≡ may_grow body.now (edits_of edits.now) fresh.now
        (map (λ c. arc_value c) cells.now)) }
    ensures may { IfOk result (λ ok. ok ≡ true → MayGrow body.now (edits_of edits.now) fresh.now
        (map (λ c. arc_value c) cells.now)) }
{
    if !fits_body(alloc, body, edits, cells) {
        return Ok(false);
    }
    let beside = without_bytes(alloc, edits)?;
    if !have_room(alloc, &beside, cells)? {
        return Ok(false);
    }
    let Some(left) = fresh.end.checked_sub(fresh.next) else {
        return Ok(false);
    };
    may_turn_all(alloc, body, edits, cells, left)
}

// Whether a body grows, data blocks among the cells are whole, and what is no byte lies in leaves
// among them.
fn fits_body(alloc: Global, body: &SizedBody, edits: &Edits, cells: &[Arc<Cell>]) -> bool
    requires { IsSizedBody body.now }
    ensures exact { result
        ≡ (does_grow body.now && (list_all is_whole (map (λ c. arc_value c) cells.now)
        && lie_in_leaves (map (λ c. arc_value c) cells.now) (edits_of edits.now))) }
    ensures grows { result ≡ true → (first : KeySeen) × IsGrowing body.now first }
{
    does_grow(alloc, body) && (are_whole(cells) && lie_in_leaves(cells, edits))
}

// Whether a body stands in extents and loses no blocks, or had no bytes and comes to extents.
fn does_grow(alloc: Global, body: &SizedBody) -> bool
    requires { IsSizedBody body.now }
    ensures exact { result ≡ does_grow body.now }
    ensures grows { result ≡ true → (first : KeySeen) × IsGrowing body.now first }
{
    let first = body.first_byte();
    if body.stood_in_extents() {
        let going = body.going();
        return !going.from.is_below(going.to);
    }
    body.is_spread() && !had_bytes(alloc, body, first)
}

// Whether a body that comes to extents had bytes, which stood in tails then.
fn had_bytes(alloc: Global, body: &SizedBody, first: Key) -> bool
    requires sized { IsSizedBody body.now }
    requires turns { turns_out body.now ≡ true }
    requires first { IsFirstKey body.now first }
    ensures { result ≡ nat_lt 0 body.now.was }
{
    let none = Edits {
        cuts: Vec::new(alloc),
        zeros: Vec::new(alloc),
        fills: Vec::new(alloc),
        runs: Vec::new(alloc),
        puts: Vec::new(alloc),
        reply: Reply::Okay,
    };
    gets_some(body, &none, first, 1)
}
