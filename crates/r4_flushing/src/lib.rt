//! An open atom with cells is sealed: what changes of a core, and that what holds of a core holds
//! still (docs/core.md, "Sealing").
#![tactic(auto)]

pub use r4_accounting::{account_after, afford, levels_law, put_change};
pub use r4_renaming::{Prepared, RenamedCell, prepare, rename_atom};
