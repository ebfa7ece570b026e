//! What is looked up before an atom is sealed. On a damaged image it may not hold. That it holds on
//! each volume is not proved; what is found here is proved to be so.

ghost use Rattle.std.specs.Prelude.{◌≡◌, ◌^◌, ◌≤◌, true};
ghost use Rattle.r4_core.specs.r4_flushing.Sealable.{IsClear};
ghost use Rattle.r4_seal.specs.Checked.{AreClearBlocks, AreClearNames, AreUsed, GetsClear};
ghost use Rattle.r4_seal.specs.Checked.{IsUsedNode};

use r4_base::{BlockNo, NodeId, UNPLACED};
use r4_core::{Core, RenamedCell};
use r4_locks::Held;
use r4_outside::{Device, Run};
use r4_space::SpaceMap;

// Whether each of the nodes that is a block is used.
pub(crate) fn are_used(space: &SpaceMap, nodes: &[NodeId]) -> bool
    ensures { result ≡ true → AreUsed space.now nodes.now }
{
    for node in nodes {
        if !is_used(space, *node) {
            return false;
        }
    }
    true
}

// Whether a node is used, if it is a block.
fn is_used(space: &SpaceMap, node: NodeId) -> bool
    ensures { result ≡ true → IsUsedNode space.now node }
{
    node.0 >= UNPLACED || space.is_used(BlockNo(node.0))
}

// Whether nothing stands on a block.
fn is_clear<D: Device, R: Run>(core: &Core<D, R>, block: u64) -> bool
    ensures { result ≡ true → IsClear core.now block }
{
    core.lawful();
    let node = NodeId(block);
    if core.buffer().get(node).is_some() || core.atoms().owner(node).is_some() {
        return false;
    }
    matches!(core.locks().held(node), Held::Free)
}

// Whether nothing stands on any of the blocks.
pub(crate) fn are_clear<D: Device, R: Run>(core: &Core<D, R>, blocks: &[BlockNo]) -> bool
    ensures { result ≡ true → AreClearBlocks core.now blocks.now }
{
    for block in blocks {
        if !is_clear(core, block.0) {
            return false;
        }
    }
    true
}

// Whether nothing stands on any of the blocks that new cells get.
pub(crate) fn names_are_clear<D: Device, R: Run>(core: &Core<D, R>, renamed: &[RenamedCell]) -> bool
    ensures { result ≡ true → AreClearNames core.now renamed.now }
{
    for one in renamed {
        if !gets_clear(core, one) {
            return false;
        }
    }
    true
}

// Whether nothing stands on the block that a cell gets, if it had none.
fn gets_clear<D: Device, R: Run>(core: &Core<D, R>, one: &RenamedCell) -> bool
    ensures { result ≡ true → GetsClear core.now one.now }
{
    one.was.0 < UNPLACED || is_clear(core, one.cell.id().0)
}
