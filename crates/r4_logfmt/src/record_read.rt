//! A record of the log, read (docs/layout.md, "The log").

ghost use Rattle.std.specs.Prelude.{◌≡◌, length, IfSome, option_map};
ghost use Rattle.r4_base.specs.Log.{pairs_of, record_of};
ghost use Rattle.r4_logfmt.specs.View.{view_block, view_record};

use crate::record::LogRecord;
use r4_base::{RECORD_PAIRS, get32, get64};

/// The magic of a record.
pub(crate) const MAGIC: [u8; 8] = *b"LogMagc4";

/// The record that a block of 4096 bytes spells, and `None` exactly at a false magic. The record lends the very block:
/// nothing is copied (docs/layout.md, "The log").
#[tactic(auto, unfolding(r4_base::specs::Log::record_of))]
pub fn read_record(b: &[u8]) -> Option<LogRecord<'_>>
    requires { length b.now ≡ 4096 }
    ensures value { option_map view_record result ≡ record_of b.now }
    ensures lent { IfSome result (λ r. view_block r ≡ b.entry) }
{
    if !b.starts_with(&MAGIC) {
        return None;
    }
    Some(LogRecord {
        id: get64(b, 8),
        total: get32(b, 16),
        serial: get32(b, 20),
        next_block: get64(b, 24),
        block: b,
        count: count_pairs(b),
    })
}

fn count_pairs(b: &[u8]) -> usize
    requires { length b.now ≡ 4096 }
    ensures { result ≡ length (pairs_of b.now) }
{
    for i in 0..RECORD_PAIRS {
        if get64(b, 32 + 16 * i) == 0 {
            return i;
        }
    }
    RECORD_PAIRS
}
