//! Why a block is no node (docs/layout.md, "Nodes").

/// What is wrong with a node: the first fault in this order, where the last three are looked for item by item and name
/// an item, counted from 0 (docs/layout.md, "Nodes").
#[derive(Clone, Copy, Debug, PartialEq, Eq)]
pub enum NodeFault {
    /// Another magic, or another node plugin than 0.
    Magic,
    /// A level that is not from 1 to 8.
    Level,
    /// No items above leaf level.
    Empty,
    /// A start of free space within the head, or sizes that do not add up to the block's.
    Space,
    /// A first body that does not begin at 28, a later one that does not begin behind the one before it, or one that
    /// begins where free space does or behind that.
    Offset(u16),
    /// An item plugin that nodes of this level do not have.
    Plugin(u16),
    /// A key that is not above the one before it.
    Order(u16),
}
