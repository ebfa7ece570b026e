//! Where a piece goes in a twig that is filled (docs/volume.md, "Twigs").

ghost use Rattle.std.specs.Prelude.{◌≡◌, ℕ};
ghost use Rattle.r4_base.specs.Node.{items_of};
ghost use Rattle.r4_node40.specs.Laid.{IsNode};
ghost use Rattle.r4_node40.specs.Loan.{bytes_of};
ghost use Rattle.r4_node40.specs.View.{item_shown};
ghost use Rattle.r4_branch.specs.Filling.{IsPlaceFor, continues_item};
ghost use Rattle.r4_branch.specs.Items.{IsSoundItem, Lie};

use crate::opening::Place;
use crate::spelling::key_behind;
use r4_base::{EXTENT, Key};
use r4_node40::{ItemView, NodeMut};

/// Where a piece at the key goes: behind what the last item has, if it continues that, and else into an item of its own.
pub(crate) fn place_for(node: &NodeMut<'_>, key: &Key, plugin: u16) -> Place
    requires node { IsNode (bytes_of node.now) }
    requires lie { (lo : ℕ) × (hi : ℕ) × Lie lo hi (items_of (bytes_of node.now)) }
    ensures { IsPlaceFor (bytes_of node.now) key.now plugin result.item result.used }
{
    let twig = node.view();
    let count = twig.len();
    if count == 0 {
        return Place { item: 0, used: 0 };
    }
    let last = twig.item(count - 1);
    if continues(&last, key, plugin) {
        return Place {
            item: count - 1,
            used: last.body.len() as u16,
        };
    }
    Place {
        item: count,
        used: 0,
    }
}

/// Whether a piece at the key continues what the item has.
fn continues(last: &ItemView<'_>, key: &Key, plugin: u16) -> bool
    requires { IsSoundItem (item_shown last.now) }
    ensures { result ≡ continues_item (item_shown last.now) key.now plugin }
{
    if plugin != EXTENT || last.plugin != EXTENT {
        return false;
    }
    match key_behind(&last.key, last.body) {
        Some(end) => end.is_same(*key),
        None => false,
    }
}
