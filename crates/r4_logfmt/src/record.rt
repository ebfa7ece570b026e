//! A record of the log, as it lends its block (docs/layout.md, "The log").

ghost use Rattle.std.specs.Prelude.{◌≡◌, ◌<◌, ◌+◌, ◌*◌, length, slice_get, Some};
ghost use Rattle.r4_base.specs.Log.{pair_at, pairs_of};

use r4_base::get64;

/// A record whose pairs are read from the block that it lends, when they are asked for (docs/layout.md, "The log").
/// `total` is what the block says, and is not judged here.
#[derive(Drop)]
pub struct LogRecord<'a> {
    pub id: u64,
    pub total: u32,
    pub serial: u32,
    pub next_block: u64,
    pub(crate) block: &'a [u8],
    pub(crate) count: usize,
    ghost whole: { length block.now ≡ 4096 },
    ghost counted: { count ≡ length (pairs_of block.now) },
}

impl LogRecord<'_> {
    ghost use Rattle.r4_logfmt.specs.View.{view_record};

    /// How many pairs the record has: those before the first original 0, at most 254 (docs/layout.md, "The log").
    pub fn pairs(&self) -> usize
        ensures { result ≡ length (view_record self.now).pairs }
    {
        self.count
    }

    /// The pair at place `i`, an original and a wandered block (docs/layout.md, "The log").
    pub fn pair(&self, i: usize) -> (u64, u64)
        requires { i < length (view_record self.now).pairs }
        ensures { slice_get (view_record self.now).pairs i ≡ Some result }
    {
        pair_in(self.block, i)
    }
}

fn pair_in(b: &[u8], i: usize) -> (u64, u64)
    requires whole { length b.now ≡ 4096 }
    requires within { i < 254 }
    ensures { result ≡ pair_at b.now i }
{
    (get64(b, 32 + 16 * i), get64(b, 40 + 16 * i))
}
