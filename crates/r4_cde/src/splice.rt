//! Entries that give way to others in a body (docs/layout.md, "Items").

use crate::fields::{HEADER, header_of};
use crate::offsets::shift_offsets;
use r4_base::{get16, move_bytes, put16};

/// `gone` entries from entry `at` on, and the `old` bytes of their bodies, which begin at `from`, that give way to `come`
/// entries with `new` bytes.
#[derive(Clone, Copy)]
pub(crate) struct Splice {
    pub(crate) at: u16,
    pub(crate) gone: u16,
    pub(crate) come: u16,
    pub(crate) from: usize,
    pub(crate) old: usize,
    pub(crate) new: usize,
}

impl Splice {
    ghost use Rattle.r4_cde.specs.Splice.{CanSplice, IsSpliced};

    /// Moves the headers and bodies of a body's first `used` bytes to where they stand once the entries have come, and counts
    /// the entries anew. The place itself is left as it is. Answers the new used length.
    pub(crate) fn apply(self, body: &mut [u8], used: usize) -> usize
        requires { CanSplice self used body.old }
        ensures { IsSpliced self used body.old result body.new }
    {
        let come = HEADER * usize::from(self.come);
        let gone = HEADER * usize::from(self.gone);
        let left = get16(body, 0) + self.come - self.gone;
        move_bytes(body, self.from + self.old, used, self.from + self.new);
        let end = used + self.new - self.old;
        let headers = header_of(self.at);
        move_bytes(body, headers + gone, end, headers + come);
        put16(body, 0, left);
        shift_offsets(body, 0, self.at, gone, come);
        shift_offsets(
            body,
            self.at + self.come,
            left,
            self.old + gone,
            self.new + come,
        );
        end + come - gone
    }
}
