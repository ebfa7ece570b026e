//! Names that their keys spell (docs/layout.md, "Names").

ghost use Rattle.std.specs.Prelude.{◌≡◌, ◌≤◌, ◌<◌, length, slice_index};
ghost use Rattle.r4_cde.specs.Spelling.{spelling};

use r4_base::Key;

/// A name of at most 23 bytes, which contracts see as a list of bytes (docs/layout.md, "Names").
#[derive(Clone, Copy, Debug)]
pub struct ShortName {
    bytes: [u8; 23],
    len: u8,
    ghost short: { len ≤ 23 },
}

impl ShortName {
    ghost use Rattle.r4_base.specs.Name.{short_name_in};
    ghost use Rattle.r4_cde.specs.Shown.{short_bytes};

    /// The bytes of the name, at most 23.
    pub fn as_bytes(&self) -> &[u8]
        ensures bytes { result.now ≡ short_bytes self.now }
        ensures short { length result.now ≤ 23 }
    {
        &self.bytes[..usize::from(self.len)]
    }

    /// What a key spells: the bytes of its ordering, object id and offset up to the first zero.
    pub(crate) fn spelled_by(key: &Key) -> ShortName
        ensures { short_bytes result ≡ short_name_in key.now }
    {
        let mut bytes = [0; 23];
        let mut len = 0;
        while len < 23 && byte_of(key, len) != 0 {
            bytes[usize::from(len)] = byte_of(key, len);
            len += 1;
        }
        ShortName { bytes, len }
    }
}

/// Byte `i` of the 23 in which a key spells a short name.
fn byte_of(key: &Key, i: u8) -> u8
    requires { i < 23 }
    ensures { result ≡ slice_index (spelling key.now) i }
{
    let (number, behind) = match i {
        0..=6 => (key.el[1], 6 - i),
        7..=14 => (key.el[2], 14 - i),
        _ => (key.el[3], 22 - i),
    };
    ((number >> (8 * behind)) % 256) as u8
}
