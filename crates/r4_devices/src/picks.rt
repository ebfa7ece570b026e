//! Which sectors of a block go back at the stop.

ghost use Rattle.std.specs.Prelude.{◌≡◌, ℕ, ◌+◌, ◌<◌};
ghost use Rattle.r4_outside.specs.Crash.{next_number, number_after};
ghost use Rattle.r4_outside.specs.Mix.{is_marked};
ghost use Rattle.r4_devices.specs.Picks.{looked, goes_back, skipped, IsPickedTo};

// The number behind a number.
fn number_behind(number: u64) -> u64
    ensures { result ≡ next_number number }
{
    number
        .wrapping_mul(6364136223846793005)
        .wrapping_add(1442695040888963407)
}

// The sectors of block `other` that are not looked at: those that the torn write of block `at` wrote.
pub fn skip_of(at: u64, tear: u8, other: u64) -> u8
    ensures { result ≡ skipped at tear other }
{
    if other == at { tear } else { 0 }
}

// One sector more: the mask of those that go back, and the number.
fn pick(mask: u8, number: u64, skip: u8, s: u32) -> (u8, u64)
    requires { s < 8 }
    ensures { (first : ℕ) → IsPickedTo s skip first mask number
        → IsPickedTo (s + 1) skip first result.0 result.1 }
{
    if (skip >> s) & 1 == 1 {
        return (mask, number);
    }
    let behind = number_behind(number);
    if behind < 1 << 63 {
        return (mask | 1 << s, behind);
    }
    (mask, behind)
}

// Which sectors of a block go back, of those that are looked at, and the number behind them.
pub fn picks(number: u64, skip: u8) -> (u8, u64)
    ensures marks { (s : ℕ) → s < 8 → is_marked result.0 s ≡ goes_back skip number s }
    ensures number { result.1 ≡ number_after number (looked skip 8) }
{
    let mut mask = 0u8;
    let mut last = number;
    for s in 0..8u32 {
        let (more, behind) = pick(mask, last, skip, s);
        mask = more;
        last = behind;
    }
    (mask, last)
}
