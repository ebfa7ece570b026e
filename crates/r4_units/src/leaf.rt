//! What stands in a leaf under a key (docs/volume.md, "Cells").

ghost use Rattle.std.specs.Prelude.{◌≡◌, ◌↔◌, ◌==◌, slice_get, Contains, Some, IsTrue, IfSome, IfNone, ◌+◌, ◌≤◌, ◌<◌, ℕ};
ghost use Rattle.r4_base.specs.Key.{IsKey, rank};
ghost use Rattle.r4_base.specs.Node.{KeysRise};
ghost use Rattle.r4_base.specs.Value.{Stat, Entry};
ghost use Rattle.r4_base.specs.declared.items.Attr.{Attr as Attributes};
ghost use Rattle.r4_base.specs.declared.items.Target.{Target as Named};
ghost use Rattle.r4_node40.specs.View.{item_shown, view_items};
ghost use Rattle.r4_cde.specs.Shown.{name_bytes};
ghost use Rattle.r4_search.specs.r4_cell.Seen.{CellSeen, node_of};
ghost use Rattle.r4_units.specs.Leaf.{AreUpTo};

use r4_base::{Attr, ENTRIES, Key, STAT, Target};
use r4_cde::{DirView, NameRef};
use r4_meta::read_stat;
use r4_node40::{ItemView, NodeView};
use r4_search::Cell;

/// How many items have a key that is not above this one: those that stand before the rest.
pub fn items_up_to(node: &NodeView<'_>, key: Key) -> u16
    requires { KeysRise (view_items node.now) }
    ensures { AreUpTo (view_items node.now) (rank key) result }
{
    let mut low = 0;
    let mut high = node.len();
    while low < high {
        let middle = low + (high - low) / 2;
        if key.is_below(node.item(middle).key) {
            high = middle;
        } else {
            low = middle + 1;
        }
    }
    low
}

/// The last item whose key is not above this one.
pub fn last_item<'a>(node: &NodeView<'a>, key: Key) -> Option<ItemView<'a>>
    requires { KeysRise (view_items node.now) }
    ensures some { IfSome result (λ it. (i : ℕ) × AreUpTo (view_items node.now) (rank key) (i + 1) × (slice_get (view_items node.now) i ≡ Some (item_shown it))) }
    ensures none { IfNone result (AreUpTo (view_items node.now) (rank key) 0) }
    ensures key { IsKey key }
{
    let count = items_up_to(node, key);
    if count == 0 {
        return None;
    }
    Some(node.item(count - 1))
}

/// The attributes that a leaf has under a stat key; none where it has none there (docs/volume.md, "Cells").
pub fn attr_in(leaf: &Cell, key: Key) -> Option<Attr>
    requires { leaf.now.level ≡ 1 }
    ensures some { IfSome result (λ a. Contains (node_of leaf.now).units (rank key, Stat a)) }
    ensures none { IfNone result ((a : Attributes) → Contains (node_of leaf.now).units (rank key, Stat a) → ⊥) }
{
    let node = leaf.node();
    let item = last_item(&node, key)?;
    if item.plugin != STAT {
        return None;
    }
    if !item.key.is_same(key) {
        return None;
    }
    match read_stat(item.body) {
        Ok(attr) => Some(attr),
        Err(_) => None,
    }
}

/// What the entry names that a leaf has under a key, where it has this name; none where no entry of this name stands there
/// (docs/volume.md, "Cells").
pub fn target_in(leaf: &Cell, key: Key, name: &[u8]) -> Option<Target>
    requires { leaf.now.level ≡ 1 }
    ensures some { IfSome result (λ t. Contains (node_of leaf.now).units (rank key, Entry name.now t)) }
    ensures none { IfNone result ((t : Named) → Contains (node_of leaf.now).units (rank key, Entry name.now t) → ⊥) }
{
    let node = leaf.node();
    let item = last_item(&node, key)?;
    if item.plugin != ENTRIES {
        return None;
    }
    let entries = DirView::of_item(&item.key, item.body);
    let entry = entries.entry(entries.find(&key)?);
    if !is_spelled(name_bytes(&entry.name), name) {
        return None;
    }
    Some(entry.target)
}

// Whether two names are the same.
fn is_spelled(left: &[u8], right: &[u8]) -> bool
    ensures { IsTrue result ↔ (left.now ≡ right.now) }
{
    left == right
}

/// The bytes of an entry's name.
pub fn name_bytes<'a>(name: &'a NameRef<'_>) -> &'a [u8]
    ensures { result.now ≡ name_bytes name.now }
{
    match name {
        NameRef::Short(short) => short.as_bytes(),
        NameRef::Long(bytes) => bytes,
    }
}
