//! Where a piece goes in a leaf that is filled (docs/volume.md, "Leaves").

ghost use Rattle.std.specs.Prelude.{◌≡◌, ◌⊎◌, ℕ, ◌+◌, ◌≤◌, length, true, None};
ghost use Rattle.r4_base.specs.Key.{offset_of};
ghost use Rattle.r4_base.specs.Node.{items_of};
ghost use Rattle.r4_node40.specs.Laid.{IsNode};
ghost use Rattle.r4_node40.specs.Loan.{bytes_of};
ghost use Rattle.r4_node40.specs.View.{item_shown};
ghost use Rattle.r4_leaf.specs.Filling.{IsPlaceFor, continues_item};
ghost use Rattle.r4_leaf.specs.Items.{IsSoundItem, Lie};

use crate::cutting::behind;
use crate::opening::Place;
use r4_base::{ENTRIES, Key, TAIL};
use r4_node40::{ItemView, NodeMut};

/// Where a piece at the key goes: behind what the last item has, if it continues that, and else into an item of its own.
pub(crate) fn place_for(node: &NodeMut<'_>, key: &Key, plugin: u16) -> Place
    requires node { IsNode (bytes_of node.now) }
    requires lie { (lo : ℕ) × (hi : ℕ) × Lie lo hi (items_of (bytes_of node.now)) }
    ensures { IsPlaceFor (bytes_of node.now) key.now plugin result.item result.used }
{
    let leaf = node.view();
    let count = leaf.len();
    if count == 0 {
        return Place { item: 0, used: 0 };
    }
    let last = leaf.item(count - 1);
    if continues(&last, key, plugin) {
        return Place {
            item: count - 1,
            used: last.body.len() as u16,
        };
    }
    Place {
        item: count,
        used: 0,
    }
}

/// Whether a piece at the key continues what the item has.
fn continues(last: &ItemView<'_>, key: &Key, plugin: u16) -> bool
    requires { IsSoundItem (item_shown last.now) }
    ensures { result ≡ continues_item (item_shown last.now) key.now plugin }
{
    if last.plugin != plugin {
        return false;
    }
    if plugin == TAIL {
        return behind(&last.key, last.body.len()).is_same(*key);
    }
    plugin == ENTRIES && last.key.el[0] == key.el[0]
}
