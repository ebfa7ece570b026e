//! Whether leaves may be turned with a body that comes to extents, as their ranges and units tell
//! it (docs/volume.md, "Bodies in extents").

ghost use Rattle.std.specs.Prelude.{◌≡◌, ◌+◌, ◌&&◌, ◌∷◌, [], Contains, IfOk, List, map, true};
ghost use Rattle.std.specs.Arc.{arc_value};
ghost use Rattle.std.specs.List.{list_all};
ghost use Rattle.r4_base.specs.Key.{rank};
ghost use Rattle.r4_content.specs.Bodies.{larger};
ghost use Rattle.r4_content.specs.Edited.{no_edits};
ghost use Rattle.r4_content.specs.Held.{edits_of};
ghost use Rattle.r4_extent_shrink.specs.r4_extent_growth.r4_extent_build.Growing.{end_after};
ghost use Rattle.r4_extent_shrink.specs.r4_extent_growth.r4_extent_build.r4_extent_edit.Turning.{last_leaf};
ghost use Rattle.r4_extent_shrink.specs.r4_extent_growth.r4_extent_demands.Sizes.{IsSizedBody};
ghost use Rattle.r4_extent_shrink.specs.r4_extent_growth.r4_measure.r4_cell.Seen.{CellSeen};
ghost use Rattle.r4_extent_shrink.specs.r4_extent_growth.r4_measure.r4_path.Sharing.{IsSound};
ghost use Rattle.r4_extent_shrink.specs.r4_extent_growth.r4_measure.r4_reach.Touched.{first_byte, turns_out};
ghost use Rattle.r4_extent_turned.specs.Suiting.{changes_before, is_clear, leaves_suit};
ghost use Rattle.r4_extent_turned.specs.Suiting.{lie_around, lie_beside};

use r4_base::{GREATEST_SIZE, Key, Memory};
use r4_content::{Edits, Interval, Reply};
use r4_extent_shrink::{Cell, KeyRange, SizedBody, gets_some, touches_leaf};
use r4_extent_turn::parts_of;
use std::alloc::Global;
use std::sync::Arc;

// ---- what changes

// Whether what edits change in leaves among the cells stands before a body; what is known of them.
pub(crate) fn change_before(body: &SizedBody, edits: &Edits, cells: &[Arc<Cell>]) -> bool
    requires sized { IsSizedBody body.now }
    ensures exact { result ≡ list_all (changes_before body.now (edits_of edits.now))
        (map (λ c. arc_value c) cells.now) }
    ensures known { result ≡ true → (c : CellSeen) → Contains (map (λ x. arc_value x) cells.now) c
        → c.level ≡ 1 → IsSound c }
{
    for cell in cells {
        if !changes_before(body, edits, cell) {
            return false;
        }
    }
    true
}

// Whether what edits change in a cell, if it is a leaf, stands before a body.
fn changes_before(body: &SizedBody, edits: &Edits, cell: &Cell) -> bool
    requires sized { IsSizedBody body.now }
    ensures exact { result ≡ changes_before body.now (edits_of edits.now) cell.now }
    ensures known { cell.now.level ≡ 1 → IsSound cell.now }
{
    if cell.level() != 1 {
        return true;
    }
    // that a leaf is sound is known of its node
    let _node = cell.node();
    let from = later_of(cell.lo(), body.first_byte());
    !touches_leaf(edits, &from, &cell.hi())
}

// The later one of two keys.
fn later_of(one: Key, other: Key) -> Key
    ensures { rank result ≡ larger (rank one) (rank other) }
{
    if one.is_below(other) { other } else { one }
}

// ---- where the leaves lie

// Whether leaves may be turned, of which the last one is given.
pub(crate) fn leaves_suit(
    alloc: Global,
    body: &SizedBody,
    leaves: &[Arc<Cell>],
    last: &Cell,
) -> Result<bool, Memory>
    requires sized { IsSizedBody body.now }
    requires turns { turns_out body.now ≡ true }
    ensures { IfOk result (λ ok. (leaf : CellSeen) (more : List CellSeen)
        → map (λ c. arc_value c) leaves.now ≡ leaf ∷ more → last.now ≡ last_leaf leaf more
        → ok ≡ leaves_suit body.now leaf more) }
{
    if !lie(body, leaves, last) {
        return Ok(false);
    }
    are_clear(alloc, body, leaves)
}

// Whether leaves lie one beside the other, and around the blocks that come; the last one is given.
fn lie(body: &SizedBody, leaves: &[Arc<Cell>], last: &Cell) -> bool
    requires sized { IsSizedBody body.now }
    requires turns { turns_out body.now ≡ true }
    ensures { (leaf : CellSeen) (more : List CellSeen)
        → map (λ c. arc_value c) leaves.now ≡ leaf ∷ more
        → result ≡ (lie_beside (rank leaf.lo) (leaf ∷ more) && lie_around body.now leaf last.now) }
{
    match leaves.first() {
        None => false,
        Some(first) => lie_beside(leaves, first.lo()) && lie_around(body, first, last),
    }
}

// Whether these are leaves of some keys, of which each begins where the one before it ends, and the
// first one with a key.
fn lie_beside(cells: &[Arc<Cell>], from: Key) -> bool
    ensures { result ≡ lie_beside (rank from) (map (λ c. arc_value c) cells.now) }
{
    let mut next = from;
    for cell in cells {
        if !lies_at(cell, &next) {
            return false;
        }
        next = cell.hi();
    }
    true
}

// Whether a cell is a leaf of some keys that begins with a key.
fn lies_at(cell: &Cell, from: &Key) -> bool
    ensures { result ≡ lie_beside (rank from.now) (cell.now ∷ []) }
{
    cell.level() == 1 && cell.lo().is_same(*from) && from.is_below(cell.hi())
}

// Whether the blocks that come begin in a first leaf, and end in a last one or with it.
fn lie_around(body: &SizedBody, first: &Cell, last: &Cell) -> bool
    requires sized { IsSizedBody body.now }
    requires turns { turns_out body.now ≡ true }
    ensures { result ≡ lie_around body.now first.now last.now }
{
    let KeyRange { from, to } = body.coming();
    !from.is_below(first.lo())
        && from.is_below(first.hi())
        && last.lo().is_below(to)
        && !last.hi().is_below(to)
}

// ---- their units

// Whether none of these leaves has a unit behind a body, at the keys of the blocks that come.
fn are_clear(alloc: Global, body: &SizedBody, leaves: &[Arc<Cell>]) -> Result<bool, Memory>
    requires sized { IsSizedBody body.now }
    requires turns { turns_out body.now ≡ true }
    requires levels { (c : CellSeen) → Contains (map (λ x. arc_value x) leaves.now) c
        → c.level ≡ 1 }
    ensures { IfOk result (λ ok. ok
        ≡ list_all (is_clear (first_byte body.now + body.now.was) (end_after body.now))
        (map (λ c. arc_value c) leaves.now)) }
{
    let size = size_before(alloc, body);
    let within = Interval {
        from: body.first_byte().behind(size),
        to: body.coming().to,
    };
    for leaf in leaves {
        if !is_clear(alloc, leaf, within)? {
            return Ok(false);
        }
    }
    Ok(true)
}

/// Whether a leaf has no unit at the keys of an interval. The only error is want of memory.
pub(crate) fn is_clear(alloc: Global, leaf: &Cell, within: Interval) -> Result<bool, Memory>
    requires { leaf.now.level ≡ 1 }
    ensures { IfOk result (λ ok. ok ≡ is_clear (rank within.from) (rank within.to) leaf.now) }
{
    let parts = parts_of(alloc, leaf, within)?;
    Ok(parts.is_empty())
}

// How many bytes a body had that comes out of tails. A body tells of a key whether it had a byte
// there, so the size is found by halves.
fn size_before(alloc: Global, body: &SizedBody) -> u64
    requires sized { IsSizedBody body.now }
    requires turns { turns_out body.now ≡ true }
    ensures { result ≡ body.now.was }
{
    let none = no_edits(alloc);
    let first = body.first_byte();
    let mut low = 0;
    let mut high = GREATEST_SIZE;
    while low < high {
        let middle = low + (high - low) / 2;
        if gets_some(body, &none, first.behind(middle), 1) {
            low = middle + 1;
        } else {
            high = middle;
        }
    }
    low
}

// Edits that change nothing.
fn no_edits(alloc: Global) -> Edits
    ensures { edits_of result ≡ no_edits }
{
    Edits {
        cuts: Vec::new(alloc),
        zeros: Vec::new(alloc),
        fills: Vec::new(alloc),
        runs: Vec::new(alloc),
        puts: Vec::new(alloc),
        reply: Reply::Okay,
    }
}
