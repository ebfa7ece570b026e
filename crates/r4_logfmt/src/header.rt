//! The journal header and the journal footer (docs/layout.md, "The log").

ghost use Rattle.std.specs.Prelude.{◌≡◌, ◌≤◌, ℕ, length, slice_index};
ghost use Rattle.r4_base.specs.Bytes.{put_all};
ghost use Rattle.r4_base.specs.Log.{header_of, header_fields, footer_of, footer_fields};

use r4_base::{Footer, Header, get64, put64};

/// The journal header that a block of 4096 bytes spells: every block spells one (docs/layout.md, "The log").
#[tactic(auto, unfolding(r4_base::specs::Log::header_of))]
pub fn read_header(b: &[u8]) -> Header
    requires { length b.now ≡ 4096 }
    ensures { result ≡ header_of b.now }
{
    Header { last: get64(b, 0) }
}

/// Writes the journal header into the first 8 bytes of a block of 4096 bytes; the others stay as they are
/// (docs/layout.md, "The log").
pub fn write_header(b: &mut [u8], h: &Header)
    requires { length b.old ≡ 4096 }
    ensures spelled { b.new ≡ put_all (header_fields h.now) 0 b.old }
    ensures again { header_of b.new ≡ h.now }
    ensures len { length b.new ≡ length b.old }
    ensures stays { (k : ℕ) → 8 ≤ k → slice_index b.new k ≡ slice_index b.old k }
{
    put64(b, 0, h.last);
}

/// The journal footer that a block of 4096 bytes spells: every block spells one (docs/layout.md, "The log").
#[tactic(auto, unfolding(r4_base::specs::Log::footer_of))]
pub fn read_footer(b: &[u8]) -> Footer
    requires { length b.now ≡ 4096 }
    ensures { result ≡ footer_of b.now }
{
    Footer {
        last: get64(b, 0),
        free_blocks: get64(b, 8),
        nr_files: get64(b, 16),
        next_oid: get64(b, 24),
    }
}

/// Writes the journal footer into the first 32 bytes of a block of 4096 bytes; the others stay as they are
/// (docs/layout.md, "The log").
pub fn write_footer(b: &mut [u8], f: &Footer)
    requires { length b.old ≡ 4096 }
    ensures spelled { b.new ≡ put_all (footer_fields f.now) 0 b.old }
    ensures again { footer_of b.new ≡ f.now }
    ensures len { length b.new ≡ length b.old }
    ensures stays { (k : ℕ) → 32 ≤ k → slice_index b.new k ≡ slice_index b.old k }
{
    put64(b, 0, f.last);
    put64(b, 8, f.free_blocks);
    put64(b, 16, f.nr_files);
    put64(b, 24, f.next_oid);
}
