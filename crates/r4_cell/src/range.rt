//! The range of all keys (docs/layout.md, "Keys").

ghost use Rattle.std.specs.Prelude.{◌≡◌};
ghost use Rattle.r4_base.specs.Key.{rank, least, top};

use r4_base::Key;

/// The least key of all, that of the root directory's stat data (docs/layout.md, "Keys").
#[tactic(auto, unfolding(r4_base::specs::Key::rank, r4_base::specs::Key::least))]
pub fn least() -> Key
    ensures { rank result ≡ least }
{
    Key {
        el: [657, 0, 42, 0],
    }
}

/// The key of four greatest numbers, which no item has and with which the root's range ends (docs/layout.md, "Keys").
#[tactic(auto, unfolding(r4_base::specs::Key::rank, r4_base::specs::Key::top))]
pub fn top() -> Key
    ensures { rank result ≡ top }
{
    Key { el: [u64::MAX; 4] }
}
