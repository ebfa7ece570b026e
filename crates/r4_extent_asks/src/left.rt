//! The leaves directly left of blocks that go (docs/volume.md, "Reach").

ghost use Rattle.std.specs.Prelude.{◌≡◌, ◌<◌, ◌≤◌, IfOk, OnOk, length, map};
ghost use Rattle.std.specs.Option.{option_copied};
ghost use Rattle.r4_base.specs.Key.{rank};
ghost use Rattle.r4_base.specs.Node.{items_of};
ghost use Rattle.r4_units.specs.r4_cell.Seen.{node_of};
ghost use Rattle.r4_units.specs.r4_node40.View.{view_items};
ghost use Rattle.r4_twig_asks.specs.r4_reach.Needs.{going_of, left_leaves};
ghost use Rattle.r4_twig_asks.specs.r4_extent_demands.Sizes.{IsSized};
ghost use Rattle.r4_extent_asks.specs.Behind.{AddsLeft, IsFirstGone, leaves_left};

use r4_base::{Key, LEAF, Memory};
use r4_twig_asks::{SizedBody, child_at};
use r4_units::{Cell, NodeView};
use std::alloc::Global;

/// The numbers of the leaves that a twig names and whose range ends where blocks of the body go: they take these up.
pub(crate) fn left_leaves(
    alloc: Global,
    body: Option<&SizedBody>,
    twig: &Cell,
) -> Result<Vec<u64>, Memory>
    requires twig { twig.now.level ≡ 2 }
    requires sized { IsSized (option_copied body) }
    ensures { IfOk result (λ v. v.items
        ≡ map (λ n. n.id) (left_leaves (option_copied body.entry) (node_of twig.now))) }
{
    match first_gone(body) {
        Some(key) => leaves_to(alloc, twig, &key),
        None => Ok(Vec::new(alloc)),
    }
}

/// The key of the first block of a body that goes, if there is a body and one does (docs/volume.md, "Reach").
pub fn first_gone(body: Option<&SizedBody>) -> Option<Key>
    requires { IsSized (option_copied body) }
    ensures { IsFirstGone (going_of (option_copied body.entry)) result }
{
    let going = body?.going();
    going.from.is_below(going.to).then_some(going.from)
}

// The numbers of the leaves that a twig names and whose range ends at a key.
fn leaves_to(alloc: Global, twig: &Cell, key: &Key) -> Result<Vec<u64>, Memory>
    requires { twig.now.level ≡ 2 }
    ensures { IfOk result (λ v. v.items ≡ leaves_left (rank key.now) (node_of twig.now).names) }
{
    let mut ids = Vec::new(alloc);
    let node = twig.node();
    for i in 0..node.len() {
        add_left(&mut ids, &node, twig, i, key)?;
    }
    Ok(ids)
}

// Puts the number of the leaf at a place behind the others, where its range ends at the key.
fn add_left(
    ids: &mut Vec<u64>,
    node: &NodeView<'_>,
    twig: &Cell,
    place: u16,
    key: &Key,
) -> Result<(), Memory>
    requires items { view_items node.now ≡ items_of twig.now.block }
    requires twig { twig.now.level ≡ 2 }
    requires within { place < length (view_items node.now) }
    ensures { OnOk result (AddsLeft twig.now place (rank key.now) ids.old.items ids.new.items) }
{
    if let Some(child) = child_at(node, twig, place) {
        if child.level == LEAF && child.hi.is_same(*key) {
            ids.push(child.id.0)?;
        }
    }
    Ok(())
}
