//! A record of the log, written (docs/layout.md, "The log").

ghost use Rattle.std.specs.Prelude.{◌≡◌, ◌≢◌, ◌<◌, ◌≤◌, ◌^◌, length, Some};
ghost use Rattle.std.specs.List.{All, flat_map};
ghost use Rattle.r4_base.specs.Bytes.{put_all};
ghost use Rattle.r4_base.specs.Log.{pair_fields, record_block, record_of};

use crate::record_read::MAGIC;
use r4_base::{blank, put_bytes, put32, put64};

/// Makes a block of 4096 bytes the spelling of a record with these pairs, each an original, which is not 0, and a
/// wandered block: at most 254. The unused pairs are zero (docs/layout.md, "The log").
pub fn write_record(
    b: &mut [u8],
    id: u64,
    total: u32,
    serial: u32,
    next_block: u64,
    pairs: &[(u64, u64)],
)
    requires whole { length b.old ≡ 4096 }
    requires few { length pairs.now ≤ 254 }
    requires named { All (λ p. p.0 ≢ 0) pairs.now }
    ensures spelled { b.new ≡ record_block (record { id = id; total = total; serial = serial; next_block = next_block; pairs = pairs.now }) }
    ensures again { record_of b.new ≡ Some (record { id = id; total = total; serial = serial; next_block = next_block; pairs = pairs.now }) }
{
    blank(b);
    put_bytes(b, 0, &MAGIC);
    put64(b, 8, id);
    put32(b, 16, total);
    put32(b, 20, serial);
    put64(b, 24, next_block);
    put_pairs(b, pairs);
}

/// Writes the pairs one after the other behind the fields of a record.
fn put_pairs(b: &mut [u8], pairs: &[(u64, u64)])
    requires whole { length b.old ≡ 4096 }
    requires few { length pairs.now ≤ 254 }
    ensures fit { All (λ p. (p.0 < 2 ^ 64) × (p.1 < 2 ^ 64)) pairs.now }
    ensures spelled { b.new ≡ put_all (flat_map pair_fields pairs.now) 32 b.old }
{
    for (i, &(original, wandered)) in pairs.iter().enumerate() {
        put64(b, 32 + 16 * i, original);
        put64(b, 40 + 16 * i, wandered);
    }
}
