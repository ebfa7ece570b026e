//! The pieces of a leaf's items (docs/volume.md, "Leaves").

ghost use Rattle.std.specs.Prelude.{◌≡◌, ℕ, ◌+◌, length, take, OnOk, IfOk};
ghost use Rattle.r4_base.specs.Cell.{item_end, item_units, units_in};
ghost use Rattle.r4_base.specs.Key.{rank};
ghost use Rattle.r4_cde.specs.Shown.{view_entries};
ghost use Rattle.r4_node40.specs.View.{item_shown, view_items};
ghost use Rattle.r4_leaf.specs.Items.{IsSoundItem, Lie};
ghost use Rattle.r4_leaf.specs.Pieces.{Adds, Follow, units_of};

use crate::piece::Piece;
use crate::run::Run;
use r4_base::{ENTRIES, Key, Memory, STAT};
use r4_cde::DirView;
use r4_node40::NodeView;
use std::alloc::Global;

/// The pieces of a leaf's items, in their order.
pub(crate) fn pieces_of<'a>(alloc: Global, leaf: &NodeView<'a>) -> Result<Vec<Piece<'a>>, Memory>
    requires { (lo : ℕ) × (hi : ℕ) × Lie lo hi (view_items leaf.now) }
    ensures units { IfOk result (λ v. units_of v.items ≡ units_in (view_items leaf.now)) }
    ensures follow { IfOk result (λ v. (lo hi : ℕ) → Lie lo hi (view_items leaf.now) → Follow lo hi v.items) }
{
    let mut pieces = Vec::new(alloc);
    for i in 0..leaf.len() {
        let item = leaf.item(i);
        add_item(&mut pieces, item.key, item.plugin, item.body)?;
    }
    Ok(pieces)
}

/// Puts the pieces of an item behind the others.
pub(crate) fn add_item<'a>(
    pieces: &mut Vec<Piece<'a>>,
    key: Key,
    plugin: u16,
    body: &'a [u8],
) -> Result<(), Memory>
    requires { IsSoundItem (record { key = key; plugin = plugin; body = body.now }) }
    ensures { OnOk result (Adds pieces.old.items (rank key) (item_end (record { key = key; plugin = plugin; body = body.now })) (item_units (record { key = key; plugin = plugin; body = body.now })) pieces.new.items) }
{
    if plugin == STAT {
        pieces.push(Piece::Stat(key, body))?;
        return Ok(());
    }
    if plugin == ENTRIES {
        return add_entries(pieces, &key, body);
    }
    pieces.push(Piece::Bytes(key, Run::lent(body)))?;
    Ok(())
}

/// Puts the entries of a directory item behind the other pieces.
fn add_entries<'a>(pieces: &mut Vec<Piece<'a>>, key: &Key, body: &'a [u8]) -> Result<(), Memory>
    requires { IsSoundItem (record { key = key.now; plugin = 2; body = body.now }) }
    ensures { OnOk result (Adds pieces.old.items (rank key.now) (item_end (record { key = key.now; plugin = 2; body = body.now })) (item_units (record { key = key.now; plugin = 2; body = body.now })) pieces.new.items) }
{
    let entries = DirView::of_item(key, body);
    for i in 0..entries.len() {
        pieces.push(Piece::Entry(entries.entry(i)))?;
    }
    Ok(())
}
