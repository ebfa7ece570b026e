//! The plugins of items, by the numbers that their headers have (docs/layout.md, "Items").

/// The plugin of stat data (docs/layout.md, "Items").
pub const STAT: u16 = 0;

/// The plugin of directory items (docs/layout.md, "Items").
pub const ENTRIES: u16 = 2;

/// The plugin of pointers to nodes (docs/layout.md, "Items").
pub const POINTER: u16 = 3;

/// The plugin of extents (docs/layout.md, "Items").
pub const EXTENT: u16 = 5;

/// The plugin of tails (docs/layout.md, "Items").
pub const TAIL: u16 = 6;
