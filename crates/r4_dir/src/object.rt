//! Objects, and places on the ways to them (docs/commands.md, "Ways").

use r4_base::{Attr, Target};

/// An object that a way has come to.
#[derive(Clone, Copy, Debug, PartialEq, Eq)]
pub struct Object {
    pub target: Target,
    pub attr: Attr,
}

/// An object, and those on the way to it, from the root on.
#[derive(Drop)]
pub struct Place {
    pub here: Object,
    pub above: Vec<Object>,
}
