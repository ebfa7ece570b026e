//! What holds of the space once an atom is charged and the blocks are deferred that a task's change
//! frees: what is deferred are just the blocks whose cells went, and what is known of a commit that
//! is under way stays known (docs/core.md, "Little steps"; docs/space.md).
#![tactic(auto)]
