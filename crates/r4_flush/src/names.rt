//! The names that cells get, those of their blocks (docs/durable.md, "From an open atom to its plan").

ghost use Rattle.std.specs.Prelude.{◌≡◌, ℕ, IfOk};
ghost use Rattle.std.specs.Ordering.{nat_cmp};
ghost use Rattle.std.specs.BTreeMap.{get};
ghost use Rattle.r4_flushed.specs.r4_commit.Places.{block_given, place_of};
ghost use Rattle.r4_flushed.specs.r4_placed.Flushing.{answer_by_block, answers_by_block};
ghost use Rattle.r4_flush.specs.Anew.{new_name};

use r4_base::{BlockNo, Memory, NodeId};
use r4_place::{How, Placed};
use std::alloc::Global;
use std::collections::BTreeMap;

/// The block of each name that gets one.
pub(crate) type Names = BTreeMap<u64, BlockNo>;

/// The blocks that the answers give.
pub(crate) fn read_names(alloc: Global, answers: &[Placed]) -> Result<Names, Memory>
    ensures { IfOk result (λ names. (i : ℕ) → get nat_cmp names i ≡ place_of answers.now i) }
{
    let mut names = BTreeMap::new(alloc);
    for answer in answers {
        if let Some(block) = block_given(answer.how) {
            names.insert(answer.node.0, block)?;
        }
    }
    Ok(names)
}

// The block that an answer gives, where it gives one.
fn block_given(how: How) -> Option<BlockNo>
    ensures { result ≡ block_given how }
{
    match how {
        How::Fresh(block) | How::Relocate(block) => Some(block),
        How::Overwrite => None,
    }
}

/// What becomes of a name: that of its block, where it gets one.
pub(crate) fn new_name(names: &Names, name: u64) -> u64
    ensures { result ≡ new_name (get nat_cmp names.now) name }
{
    match names.get(&name) {
        Some(block) => block.0,
        None => name,
    }
}

/// The answers, each for the cell under the name of its block.
pub(crate) fn by_block(alloc: Global, answers: &[Placed]) -> Result<Vec<Placed>, Memory>
    ensures { IfOk result (λ v. v.items ≡ answers_by_block answers.now) }
{
    let mut renamed = Vec::with_capacity(alloc, answers.len())?;
    for answer in answers {
        renamed.push(answer_by_block(*answer))?;
    }
    Ok(renamed)
}

// An answer for the cell under the name of its block.
fn answer_by_block(answer: Placed) -> Placed
    ensures { result ≡ answer_by_block answer }
{
    let node = match block_given(answer.how) {
        Some(block) => NodeId(block.0),
        None => answer.node,
    };
    Placed {
        node,
        how: answer.how,
    }
}
