//! Pointers to cells (docs/layout.md, "Items").

ghost use Rattle.std.specs.Prelude.{◌≡◌, ◌*◌, ◌≤◌, length, map};
ghost use Rattle.std.specs.Arc.{arc_value};
ghost use Rattle.r4_base.specs.Bytes.{number_bytes};
ghost use Rattle.r4_base.specs.Node.{KeysRise, mkfs_id_of};
ghost use Rattle.r4_path.specs.Nodes.{IsNodeOf, pointer_item};

use crate::appending::append;
use r4_base::{Block, BlockNo, NodeId, POINTER};
use r4_leaf::NodeMut;
use r4_patch::{Cell, put_pointer};
use std::sync::Arc;

/// The body of a pointer to a node.
pub fn pointer_body(to: NodeId) -> [u8; 8]
    ensures { result ≡ number_bytes 8 to.0 }
{
    let mut body = [0; 8];
    put_pointer(&mut body, BlockNo(to.0));
    body
}

/// Makes the block a node with a pointer to each of some cells, whose ranges follow each other.
pub fn fill_pointers(block: &mut Block, level: u8, mkfs_id: u32, cells: &[Arc<Cell>])
    requires level { (2 ≤ level) × (level ≤ 8) }
    requires few { 46 * length cells.now ≤ 4068 }
    requires rising { KeysRise (map (λ c. pointer_item (arc_value c)) cells.now) }
    ensures node { IsNodeOf level (map (λ c. pointer_item (arc_value c)) cells.now) block.new }
    ensures mkfs_id { mkfs_id_of block.new ≡ mkfs_id }
{
    let mut node = NodeMut::format(block, level, mkfs_id);
    for (i, cell) in cells.iter().enumerate() {
        append(
            &mut node,
            i as u16,
            cell.lo(),
            POINTER,
            &pointer_body(cell.id()),
        );
    }
}
