//! Bits in words of 64, and words that tell which words are full.

ghost use Rattle.std.specs.Prelude.{◌≡◌, ◌≢◌, ℕ, ◌+◌, ◌*◌, ◌/◌, ◌<◌, ◌≤◌, length, replicate, false, ◌==◌, ◌||◌, ◌&&◌, not, true, slice_index, MatchOption};
ghost use Rattle.std.specs.Int.{bit_at};
ghost use Rattle.r4_space.specs.Words.{is_set, IsFirstClear, IsFull, IsSeenFrom, TellsFull};

/// The word, with the bits before bit `from` counted as 1.
#[tactic(auto, using(crate::proofs::WordLaws::seen))]
fn seen_from(word: u64, from: u64) -> u64
    requires { from < 64 }
    ensures { IsSeenFrom word from result }
{
    word | ((1 << from) - 1)
}

/// The first 0 of word `w` from its bit `from` on.
fn clear_in(words: &[u64], w: u64, from: u64) -> Option<u64>
    requires small { length words.now ≤ 65536 }
    requires within { w < length words.now }
    requires below { from < 64 }
    ensures { MatchOption result (IsFull (is_set words.now) (64 * w + 64) (64 * w + from)) (IsFirstClear (is_set words.now) (64 * w + 64) (64 * w + from)) }
{
    let word = seen_from(words[w as usize], from);
    if word == u64::MAX {
        return None;
    }
    Some(64 * w + u64::from(word.trailing_ones()))
}

/// The first 0 from bit `from` on, word by word.
fn clear_by_word(words: &[u64], from: u64) -> Option<u64>
    requires small { length words.now ≤ 65536 }
    ensures { MatchOption result (IsFull (is_set words.now) (64 * length words.now) from) (IsFirstClear (is_set words.now) (64 * length words.now) from) }
{
    for w in from / 64..words.len() as u64 {
        let first = if w == from / 64 { from % 64 } else { 0 };
        let found = clear_in(words, w, first);
        if found.is_some() {
            return found;
        }
    }
    None
}

/// The first 0 from bit `from` on, by the words that tell which words are full.
fn clear_by_full(words: &[u64], full: &[u64], from: u64) -> Option<u64>
    requires small { length words.now ≤ 65536 }
    requires small_too { length full.now ≤ 65536 }
    requires told { TellsFull words.now full.now }
    ensures { MatchOption result (IsFull (is_set words.now) (64 * length words.now) from) (IsFirstClear (is_set words.now) (64 * length words.now) from) }
{
    let len = words.len() as u64;
    if from / 64 >= len {
        return None;
    }
    let here = clear_in(words, from / 64, from % 64);
    if here.is_some() {
        return here;
    }
    match clear_by_word(full, from / 64 + 1) {
        Some(next) if next < len => clear_in(words, next, 0),
        _ => None,
    }
}

/// The first 0 from bit `from` on, by the words that tell which words are full, and those that tell the same of them.
pub fn first_clear(words: &[u64], full: &[u64], fuller: &[u64], from: u64) -> Option<u64>
    requires small { length words.now ≤ 65536 }
    requires small_too { length full.now ≤ 65536 }
    requires small_three { length fuller.now ≤ 65536 }
    requires told { TellsFull words.now full.now }
    requires told_too { TellsFull full.now fuller.now }
    ensures { MatchOption result (IsFull (is_set words.now) (64 * length words.now) from) (IsFirstClear (is_set words.now) (64 * length words.now) from) }
{
    let len = words.len() as u64;
    if from / 64 >= len {
        return None;
    }
    let here = clear_in(words, from / 64, from % 64);
    if here.is_some() {
        return here;
    }
    match clear_by_full(full, fuller, from / 64 + 1) {
        Some(next) if next < len => clear_in(words, next, 0),
        _ => None,
    }
}

/// Makes bit `i` 1, and tells whether its word is full then.
pub fn set_bit(words: &mut [u64], i: u64) -> bool
    requires { i < 64 * length words.old }
    ensures set { (k : ℕ) → is_set words.new k ≡ (k == i || is_set words.old k) }
    ensures others { (w : ℕ) → w ≢ i / 64 → slice_index words.new w ≡ slice_index words.old w }
    ensures full { result ≡ (slice_index words.new (i / 64) == 18446744073709551615) }
{
    let word = &mut words[(i / 64) as usize];
    *word |= 1 << (i % 64);
    *word == u64::MAX
}

/// Makes bit `i`, which is 0, 1, and keeps the words that tell which words are full.
pub fn take_bit(words: &mut [u64], full: &mut [u64], fuller: &mut [u64], i: u64)
    requires within { i < 64 * length words.old }
    requires clear { is_set words.old i ≡ false }
    requires told { TellsFull words.old full.old }
    requires told_too { TellsFull full.old fuller.old }
    ensures set { (k : ℕ) → is_set words.new k ≡ (k == i || is_set words.old k) }
    ensures told { TellsFull words.new full.new }
    ensures told_too { TellsFull full.new fuller.new }
{
    if !set_bit(words, i) {
        return;
    }
    if !set_bit(full, i / 64) {
        return;
    }
    set_bit(fuller, i / 64 / 64);
}

/// Makes bit `i` 0.
pub fn clear_bit(words: &mut [u64], i: u64)
    requires { i < 64 * length words.old }
    ensures clear { (k : ℕ) → is_set words.new k ≡ (is_set words.old k && not (k == i)) }
    ensures others { (w : ℕ) → w ≢ i / 64 → slice_index words.new w ≡ slice_index words.old w }
{
    words[(i / 64) as usize] &= !(1 << (i % 64));
}

/// Makes bit `i` 0, and keeps the words that tell which words are full.
pub fn give_bit(words: &mut [u64], full: &mut [u64], fuller: &mut [u64], i: u64)
    requires within { i < 64 * length words.old }
    requires told { TellsFull words.old full.old }
    requires told_too { TellsFull full.old fuller.old }
    ensures clear { (k : ℕ) → is_set words.new k ≡ (is_set words.old k && not (k == i)) }
    ensures told { TellsFull words.new full.new }
    ensures told_too { TellsFull full.new fuller.new }
{
    clear_bit(words, i);
    clear_bit(full, i / 64);
    clear_bit(fuller, i / 64 / 64);
}

/// Sets each bit that is set in the other words.
pub fn join_words(words: &mut [u64], other: &[u64])
    requires { length words.old ≡ length other.now }
    ensures { (k : ℕ) → is_set words.new k ≡ (is_set words.old k || is_set other.now k) }
{
    for w in 0..words.len() {
        words[w] |= other[w];
    }
}

/// The 32 bits from bit `32 * h` on.
pub fn half_of(words: &[u64], h: u64) -> u32
    requires { h < 2 * length words.now }
    ensures { (j : ℕ) → j < 32 → (bit_at result j == 1) ≡ is_set words.now (32 * h + j) }
{
    let word = words[(h / 2) as usize];
    if h % 2 == 0 {
        (word % (1 << 32)) as u32
    } else {
        (word / (1 << 32)) as u32
    }
}

/// Whether bit `i` is 1.
#[tactic(auto, unfolding(crate::specs::Words::is_set))]
pub fn get_bit(words: &[u64], i: u64) -> bool
    requires { i < 64 * length words.now }
    ensures { result ≡ is_set words.now i }
{
    (words[(i / 64) as usize] >> (i % 64)) & 1 == 1
}

/// Makes each bit 0.
pub fn wipe(words: &mut [u64])
    ensures { words.new ≡ replicate (length words.old) 0 }
{
    words.fill(0);
}
