//! The name of an entry, lent from a directory item (docs/layout.md, "Names" and "Items").

ghost use Rattle.std.specs.Prelude.{◌≡◌, ◌+◌, ◌≤◌, true, length, slice_range};
ghost use Rattle.r4_base.specs.Name.{is_long_key};
ghost use Rattle.r4_base.specs.Dir.{name_of};

use crate::fields::TARGET;
use crate::name::is_long;
use crate::short::ShortName;
use r4_base::Key;

/// The name of an entry: one of at most 23 bytes, which its key spells, or a longer one of at most 255, lent from the
/// item's body (docs/layout.md, "Names").
#[derive(Drop)]
pub enum NameRef<'a> {
    Short(ShortName),
    Long(&'a [u8]),
}

impl<'a> NameRef<'a> {
    ghost use Rattle.r4_cde.specs.Shown.{IsLentAt, name_bytes};

    /// The name of the entry with this key, whose body stands from `from` up to `to`.
    #[tactic(auto, unfolding(r4_base::specs::Dir::name_of))]
    pub(crate) fn read(key: &Key, body: &'a [u8], from: usize, to: usize) -> NameRef<'a>
        requires order { from ≤ to }
        requires room { is_long_key key.now ≡ true → from + 25 ≤ to }
        requires inside { to ≤ length body.now }
        ensures name { name_bytes result ≡ name_of key.now (slice_range body.now from to) }
        ensures lent { IsLentAt result body.entry (from + 24) }
    {
        if is_long(key) {
            NameRef::Long(&body[from + TARGET..to - 1])
        } else {
            NameRef::Short(ShortName::spelled_by(key))
        }
    }
}
