//! The place of a key among items.

ghost use Rattle.std.specs.Prelude.{◌≤◌, ◌<◌, ◌≡◌, ℕ, length, slice_get, Some};
ghost use Rattle.r4_base.specs.Key.{rank};
ghost use Rattle.r4_base.specs.Node.{Item};
ghost use Rattle.r4_squeeze.specs.Items.{items_meant};

use r4_base::Key;
use r4_squeeze::NodeItem;

/// The place of the first item whose key is not below this one; behind all where there is none.
pub fn place_in(items: &[NodeItem<'_>], key: Key) -> usize
    ensures within { result ≤ length (items_meant items.now) }
    ensures below { (k : ℕ) (x : Item) → k < result
        → slice_get (items_meant items.now) k ≡ Some x → rank x.key < rank key }
    ensures at { (x : Item) → slice_get (items_meant items.now) result ≡ Some x
        → rank key ≤ rank x.key }
{
    for i in 0..items.len() {
        if !items[i].key().is_below(key) {
            return i;
        }
    }
    items.len()
}
