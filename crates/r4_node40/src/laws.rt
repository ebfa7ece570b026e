//! Laws of nodes. Each is the contract of a function that does nothing.

ghost use Rattle.std.specs.Prelude.{◌≡◌, ℕ, ◌+◌, ◌<◌, ◌≤◌, List, None, Some, false, true, length, sum_by, slice_get, if◌then◌else◌};
ghost use Rattle.r4_base.specs.Key.{IsKey};
ghost use Rattle.r4_base.specs.Lending.{written};
ghost use Rattle.r4_base.specs.Node.{Item, is_empty_branch, node_fault, items_of, item_at, offset_at, count_of, key_at, level_of, fits_level};
ghost use Rattle.r4_node40.specs.Laid.{IsLaid, IsNode, span_at, WritesBody, WritesSpan, room_of};
ghost use Rattle.r4_node40.specs.Edits.{RemovesItem, InsertsItem, ResizesItem, GoesBetween};

use r4_base::{Key, NodeFault};

/// A block that is laid out as a node, with a good head, plugins that fit its level and keys that rise, is one that
/// `NodeView::read` accepts, but for a branch without items. What it accepts is such a block, of which each item can be
/// named, and whose items, each with the 38 bytes of its header, take up what the room for them is less than 4068.
pub fn node_law()
    ensures accepted { (b : List ℕ) → IsNode b → node_fault b ≡ (if is_empty_branch b then Some NodeFault.Empty else None) }
    ensures good { (b : List ℕ) → length b ≡ 4096 → node_fault b ≡ None → IsNode b × (is_empty_branch b ≡ false) }
    ensures count { (b : List ℕ) → length (items_of b) ≡ count_of b }
    ensures item { (b : List ℕ) (i : ℕ) → i < count_of b → slice_get (items_of b) i ≡ Some (item_at (count_of b) b i) }
    ensures key { (b : List ℕ) (i : ℕ) → IsKey (key_at b i) }
    ensures space { (b : List ℕ) → IsLaid b → room_of b + sum_by (λ (x : Item). 38 + length x.body) (items_of b) ≡ 4068 }
{}

/// Each edit of a node leaves a node, but that a branch may then be without items. An item that is put in has to have a
/// plugin that fits the level, and a key between those of its neighbours.
pub fn edit_law()
    ensures removed { (b c : List ℕ) (i : ℕ) → IsNode b → i < count_of b → RemovesItem b i c → IsNode c }
    ensures inserted { (b c : List ℕ) (i plugin len : ℕ) (key : Key) → IsNode b → i ≤ count_of b → fits_level (level_of b) plugin ≡ true → GoesBetween (items_of b) i key → InsertsItem b i key plugin len c → IsNode c }
    ensures resized { (b c : List ℕ) (i len : ℕ) → IsNode b → i < count_of b → ResizesItem b i len c → IsNode c }
    ensures written { (b ws c : List ℕ) (i : ℕ) → IsNode b → i < count_of b → WritesBody b ws i c → IsNode c }
{}

/// A write through `body_mut` changes just that body.
pub fn body_law()
    ensures { (b ws : List ℕ) (i : ℕ) → IsLaid b → i < count_of b → length ws ≡ length (span_at b i i) → WritesBody b ws i (written b (offset_at b i) ws) }
{}

/// A write through `span_mut` changes just those bodies, each to what then stands in its part of the span.
pub fn span_law()
    ensures { (b ws : List ℕ) (i j : ℕ) → IsLaid b → i ≤ j → j < count_of b → length ws ≡ length (span_at b i j) → WritesSpan b ws i j (written b (offset_at b i) ws) }
{}
