//! How far apart keys are (docs/layout.md, "Keys").

ghost use Rattle.std.specs.Prelude.{◌≡◌, ◌+◌, ◌-◌, ◌*◌, ◌^◌, min};
ghost use Rattle.r4_base.specs.Key.{rank};

use r4_base::Key;

// The two halves of a key's rank.
#[tactic(auto, unfolding(r4_base::specs::Key::rank))]
fn halves(key: &Key) -> (u128, u128)
    ensures { rank key.now ≡ result.0 * 2 ^ 128 + result.1 }
{
    let [first, second, third, fourth] = key.el;
    let high = u128::from(first) * (1 << 64) + u128::from(second);
    let low = u128::from(third) * (1 << 64) + u128::from(fourth);
    (high, low)
}

/// How many keys there are from one on and below another, `most` at most.
pub(crate) fn keys_between(from: &Key, to: &Key, most: usize) -> usize
    ensures { result ≡ min (rank to.now - rank from.now) most }
{
    let (high, low) = halves(from);
    let (to_high, to_low) = halves(to);
    if to_high < high {
        return 0;
    }
    let highs = to_high - high;
    if highs > 1 || highs == 1 && to_low >= low {
        return most;
    }
    let keys = if highs == 1 {
        u128::MAX - low + to_low + 1
    } else {
        to_low.saturating_sub(low)
    };
    if keys < most as u128 {
        keys as usize
    } else {
        most
    }
}
