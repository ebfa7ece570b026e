//! What a node above the twigs asks for (docs/volume.md, "Reach").

ghost use Rattle.std.specs.Prelude.{◌≡◌, ◌+◌, ◌^◌, ◌<◌, ◌≤◌, ◌&&◌, ◌==◌, length, map, IfSome, if◌then◌else◌};
ghost use Rattle.std.specs.Option.{option_copied, option_map};
ghost use Rattle.r4_base.specs.Node.{items_of};
ghost use Rattle.r4_units.specs.r4_cell.Seen.{node_of};
ghost use Rattle.r4_twig_asks.specs.r4_marking.Marks.{AreSmall, ask_seen, heard_seen, most_for};
ghost use Rattle.r4_twig_asks.specs.r4_reach.Needs.{all_gone, node_asks};
ghost use Rattle.r4_twig_asks.specs.r4_extent_demands.Sizes.{IsSized};

use r4_twig_asks::{
    Asking, Heard, POINTER_ROOM, SizedBody, all_more, asking_for, comes_into, moves, node_bytes,
    over,
};
use r4_units::Cell;

/// What a node above the twigs asks for: it counts the pointers that come, and where blocks come into its range, those
/// that go.
pub(crate) fn node_asks(body: Option<&SizedBody>, cell: &Cell, heard: &[Heard]) -> Option<Asking>
    requires node { 3 ≤ cell.now.level }
    requires sized { IsSized (option_copied body) }
    requires few { length heard.now ≤ length (items_of cell.now.block) }
    requires small { AreSmall (most_for cell.now.level) heard.now }
    ensures asks { option_map ask_seen result
        ≡ node_asks (option_copied body.entry) (node_of cell.now) (map heard_seen heard.now) }
    ensures small { IfSome result (λ a. a.more ≤ most_for (cell.now.level + 1)) }
{
    let comes = comes_into(body, cell);
    let gone = all_gone(heard);
    let bytes = node_bytes(cell) + POINTER_ROOM * all_more(heard);
    let left = POINTER_ROOM * left_out(comes, gone);
    let goes = is_gone(comes, cell.node().len(), gone);
    asking_for(moves(body, cell), over(bytes.saturating_sub(left)), goes)
}

// Whether all of so many names go, where blocks come.
fn is_gone(comes: bool, names: u16, gone: u64) -> bool
    ensures { result ≡ (comes && (names == gone)) }
{
    comes && u64::from(names) == gone
}

// How many pointers are left out, where so many go: none where no blocks come.
fn left_out(comes: bool, gone: u64) -> u64
    ensures { result ≡ (if comes then gone else 0) }
{
    if comes { gone } else { 0 }
}

// How many of these go.
fn all_gone(heard: &[Heard]) -> u64
    requires { length heard.now < 2 ^ 63 }
    ensures count { result ≡ all_gone (map heard_seen heard.now) }
    ensures few { result ≤ length heard.now }
{
    match heard.split_first() {
        None => 0,
        Some((first, rest)) => u64::from(first.ask.gone) + all_gone(rest),
    }
}
