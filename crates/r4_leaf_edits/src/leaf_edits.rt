//! The edits of one leaf (docs/volume.md, "Which edits a leaf gets").

ghost use Rattle.std.specs.Prelude.{◌≡◌, ◌++◌, ◌∷◌, [], IfOk, OnOk};
ghost use Rattle.r4_reach.specs.r4_leaf.Remade.{item_of};
ghost use Rattle.r4_leaf_edits.specs.Made.{AreItems, cuts_in, items_in, made_item};

use r4_base::{Key, Memory, TAIL};
use r4_reach::{Given, KeyRange};
use std::alloc::Global;

/// What one leaf gets of a command's edits: ranges of keys that are cut out of it, and then items that are put in. The
/// bytes of a command are lent, and none is held for those that all have one value (docs/volume.md, "Which edits a leaf
/// gets").
#[derive(Drop)]
pub struct LeafEdits<'a> {
    cuts: Vec<KeyRange>,
    items: Vec<LeafItem<'a>>,
}

// An item that comes: bytes of a tail that are lent, or so many of one value; or an item whose body was spelled.
#[derive(Drop)]
pub(crate) enum LeafItem<'a> {
    Lent(Key, &'a [u8]),
    Filled(Key, u16, u8),
    Spelled(Key, u16, Vec<u8>),
}

impl<'a> LeafItem<'a> {
    // The item as it is given to a leaf.
    fn given(&self) -> Given<'_>
        ensures { item_of result ≡ made_item self.now }
    {
        match self {
            LeafItem::Lent(key, bytes) => Given::Item {
                key: *key,
                plugin: TAIL,
                body: *bytes,
            },
            LeafItem::Filled(key, count, byte) => Given::Fill {
                key: *key,
                count: *count,
                byte: *byte,
            },
            LeafItem::Spelled(key, plugin, body) => Given::Item {
                key: *key,
                plugin: *plugin,
                body: body.as_slice(),
            },
        }
    }
}

impl<'a> LeafEdits<'a> {
    /// The ranges of keys that are cut out, each within the leaf's range. They may meet one another (docs/volume.md,
    /// "Which edits a leaf gets").
    pub fn cuts(&self) -> &[KeyRange]
        ensures { result.now ≡ cuts_in self.now }
    {
        self.cuts.as_slice()
    }

    /// The items that are put in, one after another, as `remake` and `bytes_after` of r4_leaf take them. Their bodies
    /// are lent. `Memory` where there was not enough for their list (docs/volume.md, "Which edits a leaf gets").
    pub fn items(&self, alloc: Global) -> Result<Vec<Given<'_>>, Memory>
        ensures { IfOk result (λ v. AreItems self.now v.items) }
    {
        let mut items = Vec::new(alloc);
        for item in &self.items {
            items.push(item.given())?;
        }
        Ok(items)
    }

    // Nothing yet.
    pub(crate) fn none(alloc: Global) -> LeafEdits<'a>
        ensures cuts { cuts_in result ≡ [] }
        ensures items { items_in result ≡ [] }
    {
        LeafEdits {
            cuts: Vec::new(alloc),
            items: Vec::new(alloc),
        }
    }

    // One more range of keys goes.
    pub(crate) fn cut(&mut self, range: KeyRange) -> Result<(), Memory>
        ensures cuts { OnOk result (cuts_in self.new ≡ cuts_in self.old ++ range ∷ []) }
        ensures items { items_in self.new ≡ items_in self.old }
    {
        self.cuts.push(range)?;
        Ok(())
    }

    // One more range of keys goes, and an item comes.
    pub(crate) fn replace(&mut self, range: KeyRange, item: LeafItem<'a>) -> Result<(), Memory>
        ensures cuts { OnOk result (cuts_in self.new ≡ cuts_in self.old ++ range ∷ []) }
        ensures items { OnOk result (items_in self.new
            ≡ items_in self.old ++ made_item item.entry ∷ []) }
    {
        self.cuts.push(range)?;
        self.items.push(item)?;
        Ok(())
    }
}
