//! Words that stand in a block.

ghost use Rattle.std.specs.Prelude.{◌≡◌, ◌≤◌, ◌+◌, length};
ghost use Rattle.r4_base.specs.Layout.{stands_at};

/// Whether the bytes of `word` stand in `b` from `at` on.
pub(crate) fn stands_at(b: &[u8], at: usize, word: &[u8]) -> bool
    requires { at + length word.now ≤ length b.now }
    ensures { result ≡ stands_at at word.now b.now }
{
    b[at..].starts_with(word)
}
