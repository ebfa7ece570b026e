//! Items put behind those of a node (docs/layout.md, "Nodes").

ghost use Rattle.std.specs.Prelude.{◌≡◌, ◌+◌, ◌≤◌, ◌++◌, [], ◌∷◌, length, true};
ghost use Rattle.r4_base.specs.Node.{count_of, fits_level, items_of, level_of};
ghost use Rattle.r4_leaf.specs.r4_node40.Edits.{GoesBetween};
ghost use Rattle.r4_leaf.specs.r4_node40.Laid.{IsNode, room_of};
ghost use Rattle.r4_leaf.specs.r4_node40.Loan.{bytes_of, with_bytes};
ghost use Rattle.r4_path.specs.Nodes.{IsAppended};

use r4_base::Key;
use r4_leaf::NodeMut;

/// Puts an item behind the `count` items that the node has. There is room for it, and its key is above theirs.
pub fn append(node: &mut NodeMut<'_>, count: u16, key: Key, plugin: u16, body: &[u8])
    requires node { IsNode (bytes_of node.old) }
    requires counted { count ≡ count_of (bytes_of node.old) }
    requires plugin { fits_level (level_of (bytes_of node.old)) plugin ≡ true }
    requires above { GoesBetween (items_of (bytes_of node.old)) count key }
    requires some { 1 ≤ length body.now }
    requires room { length body.now + 38 ≤ room_of (bytes_of node.old) }
    ensures block { node.new ≡ with_bytes node.old (bytes_of node.new) }
    ensures appended { IsAppended (bytes_of node.old) (record { key = key; plugin = plugin; body = body.now })
        (bytes_of node.new) }
{
    let _ = node.insert(count, key, plugin, body.len() as u16);
    node.body_mut(count).copy_from_slice(body);
}
