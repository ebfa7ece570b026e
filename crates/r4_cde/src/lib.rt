//! Names and directory items (docs/layout.md, "Names" and "Items").
#![tactic(auto)]

mod edit;
mod fault;
mod fields;
mod laws;
mod lent;
mod name;
mod offsets;
mod part;
mod put;
mod short;
mod splice;
mod view;

pub use edit::{cut, insert};
pub use laws::{dir_law, given_law, name_law};
pub use lent::NameRef;
pub use name::{entry_key, name_of_key, r5};
pub use part::split;
pub use r4_base::{DirFault, Key, NameFault, Oid, Target};
pub use short::ShortName;
pub use view::{DirView, EntryRef};
