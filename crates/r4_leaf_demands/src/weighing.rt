//! How many pointers a node asks for (docs/volume.md, "Reach").

ghost use Rattle.std.specs.Prelude.{◌≡◌, ◌+◌, ◌*◌, ◌^◌, ◌<◌, ◌≤◌, length, map, IfSome};
ghost use Rattle.std.specs.Option.{option_map};
ghost use Rattle.r4_base.specs.Node.{items_of};
ghost use Rattle.r4_cell.specs.Seen.{node_of};
ghost use Rattle.r4_leaf_demands.specs.Leaves.{bearing, needing, node_more};
ghost use Rattle.r4_marking.specs.Marks.{AreSmall, ask_seen, heard_seen, most_for};
ghost use Rattle.r4_marking.specs.r4_path.Nodes.{weight};
ghost use Rattle.r4_marking.specs.r4_reach.Needs.{all_more, growing, over};

use r4_base::{ITEM_HEADER, NODE_ROOM, TWIG};
use r4_cell::Cell;
use r4_marking::{Asking, Heard};

/// How many bytes a pointer has, with its header.
pub const POINTER_ROOM: u64 = 46;

/// Bytes that are too many count for one more node each time that there are so many.
const NODE_SHARE: u64 = 1024;

/// So many pointers are asked for, if any.
pub(crate) fn needing(more: u64) -> Option<Asking>
    ensures asks { option_map ask_seen result ≡ needing more }
    ensures more { IfSome result (λ a. a.more ≡ more) }
{
    (more > 0).then_some(Asking { more, gone: false })
}

/// How many new cells a cell counts for that needs so many bytes for its items: none where they fit (docs/volume.md,
/// "Reach").
pub fn over(bytes: u64) -> u64
    requires { bytes < 2 ^ 63 }
    ensures { result ≡ over bytes }
{
    let room = u64::from(NODE_ROOM);
    if bytes <= room {
        return 0;
    }
    1 + (bytes - room + (NODE_SHARE - 1)) / NODE_SHARE
}

/// How many pointers a node asks for above the leaves, where those that it names ask for this.
pub(crate) fn node_more(cell: &Cell, heard: &[Heard]) -> u64
    requires node { 1 ≤ cell.now.level }
    requires few { length heard.now ≤ length (items_of cell.now.block) }
    requires small { AreSmall (most_for cell.now.level) heard.now }
    ensures more { let hs = map heard_seen heard.now in
        result ≡ node_more cell.now.level (bearing (node_of cell.now) hs) (growing hs) }
    ensures small { result ≤ most_for (cell.now.level + 1) }
{
    let bytes = node_bytes(cell) + POINTER_ROOM * all_more(heard);
    if cell.level() != TWIG {
        return over(bytes);
    }
    if bytes > u64::from(NODE_ROOM) {
        over(bytes).max(growing(heard))
    } else {
        0
    }
}

/// How many bytes the items of a node take up, with their headers (docs/volume.md, "Reach").
pub fn node_bytes(cell: &Cell) -> u64
    requires { 1 ≤ cell.now.level }
    ensures weight { result ≡ weight (items_of cell.now.block) }
    ensures fits { result ≤ 4068 }
    ensures few { 38 * length (items_of cell.now.block) ≤ result }
    ensures level { cell.now.level ≤ 8 }
{
    let node = cell.node();
    let mut bytes = 0;
    for i in 0..node.len() {
        bytes += u64::from(ITEM_HEADER) + node.item(i).body.len() as u64;
    }
    bytes
}

/// How many pointers all of these ask for (docs/volume.md, "Reach").
pub fn all_more(heard: &[Heard]) -> u64
    requires { all_more (map heard_seen heard.now) < 2 ^ 64 }
    ensures { result ≡ all_more (map heard_seen heard.now) }
{
    match heard.split_first() {
        None => 0,
        Some((first, rest)) => first.ask.more + all_more(rest),
    }
}

/// How many of these ask for pointers (docs/volume.md, "Reach").
pub fn growing(heard: &[Heard]) -> u64
    requires { length heard.now < 2 ^ 63 }
    ensures count { result ≡ growing (map heard_seen heard.now) }
    ensures few { result ≤ length heard.now }
{
    match heard.split_first() {
        None => 0,
        Some((first, rest)) => u64::from(first.ask.more > 0) + growing(rest),
    }
}
