//! The item of a leaf that takes a piece (docs/volume.md, "Leaves").

ghost use Rattle.std.specs.Prelude.{◌≡◌, ℕ, ◌+◌, ◌≤◌, ◌++◌, ◌==◌, length, take, if◌then◌else◌};
ghost use Rattle.r4_base.specs.Node.{Item};
ghost use Rattle.r4_node40.specs.Laid.{room_of};
ghost use Rattle.r4_node40.specs.Loan.{bytes_of, with_bytes};
ghost use Rattle.r4_leaf.specs.Filling.{Holds, IsPlace, Opens, need};

use crate::run::Run;
use r4_base::{ITEM_HEADER, Key};
use r4_node40::NodeMut;

/// The place of an item, and how many bytes its body has: none where the item is yet to be put in.
#[derive(Clone, Copy)]
pub(crate) struct Place {
    pub(crate) item: u16,
    pub(crate) used: u16,
}

impl Place {
    /// How many bytes a header takes where the item is yet to be put in.
    pub(crate) fn header(self) -> u16
        ensures { result ≡ (if self.used == 0 then 38 else 0) }
    {
        if self.used == 0 { ITEM_HEADER } else { 0 }
    }
}

/// Makes the body of the item at the place longer by so many bytes, for which there is room.
pub(crate) fn open(node: &mut NodeMut<'_>, place: Place, key: &Key, plugin: u16, more: u16)
    requires place { (it : Item) × IsPlace (bytes_of node.old) place.item it × (length it.body ≡ place.used) × (it.plugin ≡ plugin) × (place.used ≡ 0 → it.key ≡ key.now) × (need it more ≤ room_of (bytes_of node.old)) }
    requires some { 1 ≤ more }
    ensures block { node.new ≡ with_bytes node.old (bytes_of node.new) }
    ensures opens { (it : Item) → IsPlace (bytes_of node.old) place.item it → length it.body ≡ place.used → it.plugin ≡ plugin → (place.used ≡ 0 → it.key ≡ key.now) → need it more ≤ room_of (bytes_of node.old)
        → Opens (bytes_of node.old) place.item it more (bytes_of node.new) }
{
    if place.used == 0 {
        let _ = node.insert(place.item, *key, plugin, more);
    } else {
        let _ = node.resize(place.item, place.used + more);
    }
}

/// Writes bytes behind the first ones of a body, up to its end.
fn write_behind(body: &mut [u8], used: u16, bytes: &Run<'_>)
    requires { used + length bytes.now ≡ length body.old }
    ensures { body.new ≡ take used body.old ++ bytes.now }
{
    bytes.write(&mut body[used as usize..]);
}

/// Puts bytes behind those of the item at the place.
pub(crate) fn put_bytes_at(
    node: &mut NodeMut<'_>,
    place: Place,
    key: &Key,
    plugin: u16,
    bytes: &Run<'_>,
)
    requires place { (it : Item) × IsPlace (bytes_of node.old) place.item it × (length it.body ≡ place.used) × (it.plugin ≡ plugin) × (place.used ≡ 0 → it.key ≡ key.now) × (need it (length bytes.now) ≤ room_of (bytes_of node.old)) }
    requires some { 1 ≤ length bytes.now }
    ensures block { node.new ≡ with_bytes node.old (bytes_of node.new) }
    ensures holds { (it : Item) → IsPlace (bytes_of node.old) place.item it → length it.body ≡ place.used → it.plugin ≡ plugin → (place.used ≡ 0 → it.key ≡ key.now) → need it (length bytes.now) ≤ room_of (bytes_of node.old)
        → Holds (bytes_of node.old) place.item it (it.body ++ bytes.now) (bytes_of node.new) }
{
    open(node, place, key, plugin, bytes.len() as u16);
    write_behind(node.body_mut(place.item), place.used, bytes);
}
