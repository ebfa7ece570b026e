//! What a twig asks for (docs/volume.md, "Reach").

ghost use Rattle.std.specs.Prelude.{◌≡◌, ◌+◌, ◌*◌, ◌^◌, ◌<◌, ◌≤◌, ◌&&◌, ◌||◌, ◌==◌, IfOk, IfSome};
ghost use Rattle.std.specs.Prelude.{length, map, nat_lt};
ghost use Rattle.std.specs.Option.{option_copied, option_map};
ghost use Rattle.r4_base.specs.Key.{rank};
ghost use Rattle.r4_base.specs.Node.{items_of};
ghost use Rattle.r4_extent_demands.specs.r4_cell.Seen.{node_of};
ghost use Rattle.r4_content.specs.Held.{edits_of};
ghost use Rattle.r4_extent_demands.specs.r4_marking.Marks.{AreSmall, ask_seen, heard_seen, most_for};
ghost use Rattle.r4_extent_demands.specs.r4_marking.r4_reach.Needs.{asking, come_of, growing, meets, moves, twig_asks};
ghost use Rattle.r4_extent_demands.specs.r4_marking.r4_reach.Touched.{coming};
ghost use Rattle.r4_extent_demands.specs.Sizes.{AreExtentEdits, IsSized, IsSizedBody};
ghost use Rattle.r4_twig_asks.specs.Asking.{more_for};

use crate::weighing::twig_bytes;
use r4_base::{Key, Memory, NODE_ROOM};
use r4_content::Edits;
use r4_extent_demands::{
    Asking, Cell, Heard, KeyRange, POINTER_ROOM, SizedBody, TwigPiece, all_more, changes_some,
    growing, node_bytes, over, part_of, pieces_after, put_among,
};
use std::alloc::Global;

/// What a twig asks for after edits, where the leaves below it ask for this, in the order of its names: at most one for
/// each of its items. One whose pieces change, or into whose range blocks come, is packed anew, and needs what its
/// pieces need; one that only gets pointers keeps its items. `Memory` where there was not enough (docs/volume.md,
/// "Reach").
pub fn twig_asks(
    alloc: Global,
    body: Option<&SizedBody>,
    edits: &Edits,
    twig: &Cell,
    heard: &[Heard],
) -> Result<Option<Asking>, Memory>
    requires twig { twig.now.level ≡ 2 }
    requires edits { AreExtentEdits (option_copied body) (edits_of edits.now) }
    requires few { length heard.now ≤ length (items_of twig.now.block) }
    requires small { AreSmall (most_for 2) heard.now }
    ensures asks { IfOk result (λ a. option_map ask_seen a
        ≡ twig_asks (option_copied body.entry) (edits_of edits.now) (node_of twig.now)
        (map heard_seen heard.now)) }
    ensures small { IfOk result (λ o. IfSome o (λ a. a.more ≤ most_for 3)) }
{
    let put = put_among(alloc, body, edits, twig)?;
    let changes = changes_some(body, edits, twig);
    let comes = comes_into(body, twig);
    let moves = moves(body, twig);
    let items = node_bytes(twig);
    let more = all_more(heard);
    if !is_packed(put, changes, comes) {
        let need = items + POINTER_ROOM * more;
        return Ok(asking_for(moves, more_for(need, heard), false));
    }
    let made = pieces_after(alloc, body, edits, twig, heard)?;
    let pieces = made.as_slice();
    let gone = is_gone(comes, pieces);
    let need = twig_bytes(pieces) + POINTER_ROOM * (more + put);
    Ok(asking_for(moves, more_for(need, heard), gone))
}

// Whether a twig goes: blocks come into its range, and it has no pieces.
fn is_gone(comes: bool, pieces: &[TwigPiece]) -> bool
    ensures { result ≡ (comes && (length pieces.now == 0)) }
{
    comes && pieces.is_empty()
}

// Whether a twig is packed anew: where values are put among its extents, its units change, or blocks come.
fn is_packed(put: u64, changes: bool, comes: bool) -> bool
    ensures { result ≡ ((nat_lt 0 put || changes) || comes) }
{
    put > 0 || changes || comes
}

/// Whether blocks of a body come into the range of a node, if there is a body (docs/volume.md, "Reach").
pub fn comes_into(body: Option<&SizedBody>, node: &Cell) -> bool
    requires { IsSized (option_copied body) }
    ensures { result ≡ meets (rank node.now.lo) (rank node.now.hi)
        (come_of (option_copied body.entry)) }
{
    let Some(body) = body else {
        return false;
    };
    let range = KeyRange {
        from: node.lo(),
        to: node.hi(),
    };
    let coming = body.coming();
    part_of(&range, coming.from, coming.to).is_some()
}

/// Whether a border of a node lies within the blocks of a body that come, if there is a body (docs/volume.md, "Reach").
pub fn moves(body: Option<&SizedBody>, node: &Cell) -> bool
    requires { IsSized (option_copied body) }
    ensures { result ≡ moves (come_of (option_copied body.entry)) (node_of node.now) }
{
    match body {
        Some(body) => moves_by(body, node),
        None => false,
    }
}

// Whether a border of a node lies within the blocks of a body that come.
fn moves_by(body: &SizedBody, node: &Cell) -> bool
    requires { IsSizedBody body.now }
    ensures { result ≡ moves (coming body.now) (node_of node.now) }
{
    let coming = body.coming();
    is_within(&coming, node.lo()) || is_within(&coming, node.hi())
}

// Whether a key lies in a range and does not begin it.
fn is_within(range: &KeyRange, key: Key) -> bool
    ensures { result
        ≡ (nat_lt (rank range.now.from) (rank key) && nat_lt (rank key) (rank range.now.to)) }
{
    range.from.is_below(key) && key.is_below(range.to)
}

// How many pointers a node asks for that needs so many bytes.
fn more_for(bytes: u64, heard: &[Heard]) -> u64
    requires bytes { bytes < 2 ^ 63 }
    requires few { length heard.now < 2 ^ 63 }
    ensures more { result ≡ more_for bytes (growing (map heard_seen heard.now)) }
    ensures small { bytes ≤ 33557476 → length heard.now ≤ 107 → result ≤ 32768 }
{
    if bytes > u64::from(NODE_ROOM) {
        over(bytes).max(growing(heard))
    } else {
        0
    }
}

/// So many pointers, and that the one to it goes: asked for where that is something, or in any case (docs/volume.md,
/// "Reach").
pub fn asking_for(always: bool, more: u64, gone: bool) -> Option<Asking>
    ensures asks { option_map ask_seen result
        ≡ asking always (record { more = more; gone = gone }) }
    ensures more { IfSome result (λ a. a.more ≡ more) }
{
    (always || more > 0 || gone).then_some(Asking { more, gone })
}
