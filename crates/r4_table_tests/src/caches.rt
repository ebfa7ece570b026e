//! The order of a cache.

ghost use Rattle.std.specs.Prelude.{◌≡◌};
ghost use Rattle.r4_cache.specs.Cached.{in_front};

use r4_base::{Block, Memory, NodeId};
use r4_cache::Cache;
use r4_cell::{Cell, least, read_cell, top};
use std::alloc::Global;
use std::process::Abort;
use std::sync::Arc;
use std::test::Fail;

// A data block of a name.
fn cell(alloc: Global, id: u64) -> Result<Arc<Cell>, Fail> {
    let block = Block::zeroed(alloc)?;
    match read_cell(alloc, NodeId(id), 0, least(), top(), 5000, block) {
        Ok(cell) => Ok(cell),
        Err(_) => Err(Fail::from("no memory")),
    }
}

// Is there an entry of this name? It comes to the front: a caller learns that of a reference that has ended.
fn has(cache: &mut Cache, id: u64) -> bool
    ensures { cache.new ≡ record cache.old { entries = in_front id cache.old.entries } }
{
    cache.get(NodeId(id)).is_some()
}

// A further owner of the cell of this name, as a caller takes one out.
fn share(cache: &mut Cache, id: u64) -> Result<Option<Arc<Cell>>, Memory>
    ensures { cache.new ≡ record cache.old { entries = in_front id cache.old.entries } }
{
    match cache.get(NodeId(id)) {
        Some(cell) => Ok(Some(Arc::try_clone(cell)?)),
        None => Ok(None),
    }
}

// The names of the entries that are there, of these.
fn named<X: Abort>(rt: &X, cache: &mut Cache, names: &[u64], row: &[bool]) {
    for (name, there) in names.iter().zip(row) {
        assert_eq!(rt; has(cache, *name), *there, "{name}");
    }
}

// Puts a cell of this name.
fn put(alloc: Global, cache: &mut Cache, id: u64) -> Result<(), Fail> {
    cache.put(alloc, cell(alloc, id)?)?;
    Ok(())
}

// Puts five cells into a cache of two, of which the second comes and goes.
fn put_five<X: Abort>(rt: &X, alloc: Global, cache: &mut Cache) -> Result<(), Fail> {
    put(alloc, cache, 30)?;
    put(alloc, cache, 31)?;
    named(rt, cache, &[30], &[true]);
    put(alloc, cache, 32)?;
    named(rt, cache, &[31, 30, 32], &[false, true, true]);
    put(alloc, cache, 30)?;
    put(alloc, cache, 33)?;
    named(rt, cache, &[32, 30, 33], &[false, true, true]);
    Ok(())
}

// Drops a node of which there is a further owner: the name that this one has then.
fn drop_shared(cache: &mut Cache, id: u64) -> Result<Option<u64>, Memory> {
    let shared = share(cache, id)?;
    cache.drop_node(NodeId(id));
    Ok(shared.map(|cell| cell.id().0))
}

#[test]
fn the_one_used_longest_ago_goes(rt: HostRuntime) -> Result<(), Fail> {
    let mut cache = Cache::new(rt.alloc(), 2)?;
    put_five(&rt, rt.alloc(), &mut cache)?;
    let shared = drop_shared(&mut cache, 30)?;
    named(&rt, &mut cache, &[30, 33], &[false, true]);
    same_len(&rt, &cache, 1);
    assert_eq!(rt; shared, Some(30));
    Ok(())
}

#[test]
fn many_cells_go_in_the_order_of_their_use(rt: HostRuntime) -> Result<(), Fail> {
    let alloc = rt.alloc();
    let mut cache = Cache::new(alloc, 4096)?;
    for id in 0..4096 {
        put(alloc, &mut cache, id)?;
    }
    for step in 0..4096u64 {
        named(&rt, &mut cache, &[step.wrapping_mul(1365) % 4096], &[true]);
    }
    for step in 0..4096u64 {
        put(alloc, &mut cache, 4096 + step)?;
        let gone = step.wrapping_mul(1365) % 4096;
        named(&rt, &mut cache, &[gone], &[false]);
    }
    same_len(&rt, &cache, 4096);
    Ok(())
}

fn same_len<X: Abort>(rt: &X, cache: &Cache, wanted: usize) {
    assert_eq!(rt; cache.len(), wanted);
}
