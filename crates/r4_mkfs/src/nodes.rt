//! The two nodes of a fresh volume: the root, a twig, and its leaf (docs/volume.md, "A fresh volume").

ghost use Rattle.std.specs.Prelude.{◌≡◌, ◌≤◌, length, true, IfOk};
ghost use Rattle.std.specs.Arc.{arc_value};
ghost use Rattle.r4_base.specs.Bytes.{number_bytes};
ghost use Rattle.r4_base.specs.Node.{fits_level};
ghost use Rattle.r4_base.specs.Stat.{stat_body};
ghost use Rattle.r4_base.specs.Volume.{root_attr};
ghost use Rattle.r4_base.specs.Fresh.{IsFreshNode, root_key};

use r4_base::{
    Attr, Block, FRESH_LEAF, FRESH_TWIG, Key, LEAF, Memory, NodeId, POINTER, ROOT_OBJECT, STAT,
    TWIG,
};
use r4_cell::{Cell, least, new_cell, top};
use r4_meta::write_stat;
use r4_node40::NodeMut;
use r4_twig::put_pointer;
use std::alloc::Global;
use std::sync::Arc;

/// What nodes and the superblock say of the mkfs that made them.
pub const MKFS_ID: u32 = 1;

/// The attributes of an empty root directory.
const ROOT: Attr = Attr {
    mode: 0o40755,
    nlink: 2,
    size: 0,
    uid: 0,
    gid: 0,
    atime: 0,
    mtime: 0,
    ctime: 0,
    bytes: 0,
};

/// The two nodes of a fresh volume, as the cells that its tree has.
#[derive(Drop)]
pub struct Nodes {
    pub twig: Arc<Cell>,
    pub leaf: Arc<Cell>,
}

/// Makes the two nodes, in memory.
pub fn fresh_nodes(alloc: Global) -> Result<Nodes, Memory>
    ensures twig { IfOk result (λ n. IsFreshNode (arc_value n.twig).block 2 3 (number_bytes 8 23)) }
    ensures leaf { IfOk result (λ n. IsFreshNode (arc_value n.leaf).block 1 0 (stat_body root_attr)) }
{
    let mut twig = Block::zeroed(alloc)?;
    fill_twig(&mut twig);
    let mut leaf = Block::zeroed(alloc)?;
    fill_leaf(&mut leaf);
    Ok(Nodes {
        twig: new_cell(alloc, NodeId(FRESH_TWIG.0), TWIG, least(), top(), twig)?,
        leaf: new_cell(alloc, NodeId(FRESH_LEAF.0), LEAF, least(), top(), leaf)?,
    })
}

/// Makes the block the root: a twig that points to the leaf.
fn fill_twig(block: &mut Block)
    ensures { IsFreshNode block.new 2 3 (number_bytes 8 23) }
{
    let mut body = [0; 8];
    put_pointer(&mut body, FRESH_LEAF);
    fill_node(block, TWIG, POINTER, &body);
}

/// Makes the block the leaf: it has the root directory's stat data.
fn fill_leaf(block: &mut Block)
    ensures { IsFreshNode block.new 1 0 (stat_body root_attr) }
{
    let mut body = [0; 44];
    write_stat(&mut body, &ROOT);
    fill_node(block, LEAF, STAT, &body);
}

/// Makes the block a node of one item, which has the least key.
fn fill_node(block: &mut Block, level: u8, plugin: u16, body: &[u8])
    requires level { (1 ≤ level) × (level ≤ 8) }
    requires plugin { fits_level level plugin ≡ true }
    requires some { 1 ≤ length body.now }
    requires short { length body.now ≤ 4030 }
    ensures { IsFreshNode block.new level plugin body.now }
{
    let mut node = NodeMut::format(block, level, MKFS_ID);
    let _ = node.insert(0, root_key(), plugin, body.len() as u16);
    node.body_mut(0).copy_from_slice(body);
}

/// The key of the root directory's stat data, the least of all.
fn root_key() -> Key
    ensures { result ≡ root_key }
{
    Key::stat(ROOT_OBJECT.locality, ROOT_OBJECT.ordering, ROOT_OBJECT.oid)
}
