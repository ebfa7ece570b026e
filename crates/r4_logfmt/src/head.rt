//! The head of a transaction (docs/layout.md, "The log").

ghost use Rattle.std.specs.Prelude.{◌≡◌, length, Some};
ghost use Rattle.r4_base.specs.Log.{head_of, head_block};

use r4_base::{TxHead, blank, get32, get64, put_bytes, put32, put64};

const MAGIC: [u8; 8] = *b"TxMagic4";

/// The head that a block of 4096 bytes spells, and `None` exactly at a false magic. The padding is not read
/// (docs/layout.md, "The log").
#[tactic(auto, unfolding(r4_base::specs::Log::head_of))]
pub fn read_head(b: &[u8]) -> Option<TxHead>
    requires { length b.now ≡ 4096 }
    ensures { result ≡ head_of b.now }
{
    if !b.starts_with(&MAGIC) {
        return None;
    }
    Some(TxHead {
        id: get64(b, 8),
        total: get32(b, 16),
        prev_tx: get64(b, 24),
        next_block: get64(b, 32),
        free_blocks: get64(b, 40),
        nr_files: get64(b, 48),
        next_oid: get64(b, 56),
    })
}

/// Makes a block of 4096 bytes the spelling of a head: its padding and all past its fields are zero
/// (docs/layout.md, "The log").
pub fn write_head(b: &mut [u8], h: &TxHead)
    requires { length b.old ≡ 4096 }
    ensures spelled { b.new ≡ head_block h.now }
    ensures again { head_of b.new ≡ Some h.now }
{
    blank(b);
    put_bytes(b, 0, &MAGIC);
    put64(b, 8, h.id);
    put32(b, 16, h.total);
    put32(b, 20, 0);
    put64(b, 24, h.prev_tx);
    put64(b, 32, h.next_block);
    put64(b, 40, h.free_blocks);
    put64(b, 48, h.nr_files);
    put64(b, 56, h.next_oid);
}
