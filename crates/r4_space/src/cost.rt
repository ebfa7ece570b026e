//! What an atom costs.

ghost use Rattle.std.specs.Prelude.{◌≡◌, ◌^◌, ◌<◌};
ghost use Rattle.r4_space.specs.Accounts.{price_of};

use r4_base::RECORD_PAIRS;

/// How many blocks the commit of an atom of so many cells takes at most, on a volume with so many bitmaps: copies of
/// the cells, of the bitmaps and of the superblock, a log record for each 254 of these copies or part of them, and the
/// log's head. An atom without cells takes none (docs/space.md, "Price and free").
pub fn price(cells: u64, bitmaps: u64) -> u64
    requires cells { cells < 2 ^ 32 }
    requires bitmaps { bitmaps < 2 ^ 32 }
    ensures { result ≡ price_of cells bitmaps }
{
    if cells == 0 {
        return 0;
    }
    let copies = cells + bitmaps + 1;
    copies + copies.div_ceil(RECORD_PAIRS as u64) + 1
}
