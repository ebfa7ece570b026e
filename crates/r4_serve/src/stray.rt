//! Blocks that no cell of a volume has.

ghost use Rattle.std.specs.Prelude.{MatchBool, MatchOption, map};
ghost use Rattle.std.specs.Arc.{arc_value};
ghost use Rattle.r4_content.specs.declared.reply.Reply.TheVariants.{Damaged};
ghost use Rattle.std.specs.Option.{option_map};
ghost use Rattle.r4_serve.specs.Serving.{IsOverwritten, IsStray, IsStrayReply, NoneStray, parts_seen};

use crate::parts::Parts;
use r4_base::BlockNo;
use r4_cell::Cell;
use r4_commit::CommitPlan;
use std::sync::Arc;

// The block of the first of these cells that no cell of a volume has: none of its name is in memory,
// and an atom owns it, or the commit under way writes it.
pub(crate) fn stray_block(parts: &Parts<'_>, cells: &[Arc<Cell>]) -> Option<BlockNo>
    ensures { MatchOption result
        (NoneStray (parts_seen parts.now) (map (λ c. arc_value c) cells.now))
        (λ b. IsStrayReply (parts_seen parts.now) (map (λ c. arc_value c) cells.now)
        (Damaged b)) }
{
    for cell in cells {
        if is_stray(parts, cell) {
            return Some(BlockNo(cell.id().0));
        }
    }
    None
}

// Whether none of the cell's name is in memory, and an atom owns the cell, or the commit under way
// writes its block.
fn is_stray(parts: &Parts<'_>, cell: &Cell) -> bool
    ensures { MatchBool result
        (IsStray (parts_seen parts.now) cell.now)
        (IsStray (parts_seen parts.now) cell.now → ⊥) }
{
    let node = cell.id();
    parts.buffer.get(node).is_none()
        && (parts.atoms.owner(node).is_some() || is_overwritten(parts.plan, BlockNo(node.0)))
}

// Whether the commit under way writes the block.
fn is_overwritten(plan: Option<&CommitPlan>, block: BlockNo) -> bool
    ensures { MatchBool result
        (IsOverwritten (option_map (λ p. p.now) plan.entry) block.0)
        (IsOverwritten (option_map (λ p. p.now) plan.entry) block.0 → ⊥) }
{
    match plan {
        Some(plan) => plan.falls_on(block),
        None => false,
    }
}
