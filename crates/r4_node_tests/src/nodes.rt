//! Nodes: the faults of a leaf, and its edits.

use crate::same::{same, same_in};
use r4_base::{Block, Key, NodeFault, Oid, put16};
use r4_node40::{Full, NodeMut, NodeView};
use std::alloc::Global;
use std::process::Abort;
use std::test::Fail;

// Makes a block a leaf with the stat data of the root, of zeros, and a tail of two bytes. One byte of each is written, or none.
fn lay_leaf(block: &mut Block, is_written: bool) -> Result<(), Fail> {
    let mut node = NodeMut::format(block, 1, 0);
    let Ok(()) = node.insert(0, Key::stat(41, 0, Oid(42)), 0, 44) else {
        return Err(Fail::from("there is no room for stat data"));
    };
    let Ok(()) = node.insert(1, Key::body(41, 0, Oid(42), 0), 6, 2) else {
        return Err(Fail::from("there is no room for a tail"));
    };
    if is_written {
        let span = node.span_mut(0, 1);
        if span.len() != 46 {
            return Err(Fail::from("the bodies are not 46 bytes"));
        }
        let (stat, tail) = span.split_at_mut(44);
        stat[3] = 7;
        tail[1] = 9;
    }
    Ok(())
}

// Such a leaf.
fn leaf(alloc: Global, is_written: bool) -> Result<Block, Fail> {
    let mut block = Block::zeroed(alloc)?;
    lay_leaf(&mut block, is_written)?;
    Ok(block)
}

// The fault of a block in which some numbers of two bytes are changed.
fn fault_of(
    alloc: Global,
    block: &Block,
    changes: &[(usize, u16)],
) -> Result<Option<NodeFault>, Fail> {
    let mut changed = block.copy(alloc)?;
    for &(at, number) in changes {
        if at > 4094 {
            return Err(Fail::from("there is no such place"));
        }
        put16(changed.bytes_mut(), at, number);
    }
    Ok(NodeView::read(changed.bytes()).err())
}

// Numbers of two bytes, each with its place.
type Numbers = &'static [(usize, u16)];

// Changes of the leaf, and the fault. The head begins at 0, the header of item 0 at 4058, and that of item 1 at 4020.
static OF_A_LEAF: [(Numbers, Option<NodeFault>); 14] = [
    (&[], None),
    (&[(16, 5), (24, 5), (27, 5)], None),
    (&[(8, 1)], Some(NodeFault::Magic)),
    (&[(0, 1)], Some(NodeFault::Magic)),
    (&[(26, 0)], Some(NodeFault::Level)),
    (&[(26, 9)], Some(NodeFault::Level)),
    (&[(26, 2), (2, 0)], Some(NodeFault::Empty)),
    (&[(4, 3945)], Some(NodeFault::Space)),
    (&[(6, 27), (4, 3993)], Some(NodeFault::Space)),
    (&[(4090, 29)], Some(NodeFault::Offset(0))),
    (&[(4052, 28)], Some(NodeFault::Offset(1))),
    (&[(4052, 74)], Some(NodeFault::Offset(1))),
    (&[(4094, 3)], Some(NodeFault::Plugin(0))),
    (&[(4020, 657)], Some(NodeFault::Order(1))),
];

#[test]
fn faults_of_a_leaf_are_named(rt: HostRuntime) -> Result<(), Fail> {
    let block = leaf(rt.alloc(), false)?;
    for (row, (changes, fault)) in OF_A_LEAF.iter().enumerate() {
        same_in(&rt, &fault_of(rt.alloc(), &block, changes)?, fault, row);
    }
    Ok(())
}

// The bytes that are others than before, each with its place.
fn changed_in(alloc: Global, before: &[u8], after: &[u8]) -> Result<Vec<(usize, u8)>, Fail> {
    let mut changed = Vec::new(alloc);
    for (at, (old, new)) in before.iter().zip(after).enumerate() {
        if old != new {
            changed.push((at, *new))?;
        }
    }
    Ok(changed)
}

#[test]
fn two_bodies_are_written_at_once(rt: HostRuntime) -> Result<(), Fail> {
    let before = leaf(rt.alloc(), false)?;
    let after = leaf(rt.alloc(), true)?;
    let changed = changed_in(rt.alloc(), before.bytes(), after.bytes())?;
    let wanted = [(31, 7), (73, 9)];
    same(&rt, &changed.as_slice(), &wanted.as_slice(), "bytes");
    Ok(())
}

// Fills a leaf, and takes the first of two items away then: what is answered where there is no room, to an insert past it, to a
// second insert, and as a body is to grow.
fn fill(block: &mut Block) -> Result<[Full; 3], Fail> {
    let mut node = NodeMut::format(block, 1, 0);
    let key = Key::body(42, 0, Oid(70_000), 0);
    let Err(past) = node.insert(0, key, 6, 4031) else {
        return Err(Fail::from("a body of 4031 bytes does not fit"));
    };
    let Ok(()) = node.insert(0, key, 6, 4030) else {
        return Err(Fail::from("a body of 4030 bytes fits"));
    };
    let Err(second) = node.insert(1, key, 6, 1) else {
        return Err(Fail::from("the leaf is full"));
    };
    let Err(grown) = node.resize(0, 4031) else {
        return Err(Fail::from("the body cannot grow"));
    };
    let Ok(()) = node.resize(0, 10) else {
        return Err(Fail::from("the body can shrink"));
    };
    let Ok(()) = node.insert(1, Key::body(42, 0, Oid(70_001), 0), 6, 20) else {
        return Err(Fail::from("there is room again"));
    };
    node.remove(0);
    Ok([past, second, grown])
}

// The answers.
static FULL: [Full; 3] = [
    Full {
        need: 4069,
        free: 4068,
    },
    Full { need: 39, free: 0 },
    Full { need: 1, free: 0 },
];

#[test]
fn a_leaf_is_filled(rt: HostRuntime) -> Result<(), Fail> {
    let mut block = Block::zeroed(rt.alloc())?;
    let answers = fill(&mut block)?;
    same(&rt, &answers, &FULL, "answers");
    one_item(&rt, &block)
}

// Looks at a leaf that is left with the second of two items.
fn one_item<X: Abort>(rt: &X, block: &Block) -> Result<(), Fail> {
    let Ok(view) = NodeView::read(block.bytes()) else {
        return Err(Fail::from("the leaf is refused"));
    };
    same(rt, &view.len(), &1, "items");
    if view.len() > 0 {
        let item = view.item(0);
        let wanted = Key::body(42, 0, Oid(70_001), 0);
        same(rt, &item.key, &wanted, "key");
        same(rt, &item.plugin, &6, "plugin");
        same(rt, &item.body, &[0u8; 20].as_slice(), "body");
    }
    Ok(())
}
