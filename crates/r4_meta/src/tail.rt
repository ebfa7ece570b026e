//! Tails (docs/layout.md, "Items").

ghost use Rattle.std.specs.Prelude.{◌≡◌, ◌≤◌, ◌+◌, length, slice_range};

/// The bytes of a tail from `from` up to `to`, places in its body: the very slice, of which nothing is copied. Every body
/// of at least one byte is a tail (docs/layout.md, "Items").
pub fn tail_part<'a>(body: &'a [u8], from: usize, to: usize) -> &'a [u8]
    requires order { from ≤ to }
    requires within { to ≤ length body.now }
    ensures value { result.now ≡ slice_range body.now from to }
    ensures place { result.ref_ptr ≡ (body.entry.ref_ptr.0, body.entry.ref_ptr.1 + from) }
{
    &body[from..to]
}
