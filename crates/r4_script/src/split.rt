//! Texts that are split at a byte.

ghost use Rattle.std.specs.Prelude.{◌≡◌};
ghost use Rattle.r4_script.specs.Split.{until as until_byte};

/// What stands before the first `stop`, and all where there is none.
pub fn until(bytes: &[u8], stop: u8) -> &[u8]
    ensures { result.now ≡ until_byte stop bytes.now }
{
    for (i, byte) in bytes.iter().enumerate() {
        if *byte == stop {
            return &bytes[..i];
        }
    }
    bytes
}
