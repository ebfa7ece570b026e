//! What the nodes of a tree hold, gathered for the rules on objects (docs/check.md, "Objects").
#![tactic(auto)]

mod gather;

pub use gather::gather_node;
