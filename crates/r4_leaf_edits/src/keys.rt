//! Keys in the range of a leaf (docs/layout.md, "Keys").

ghost use Rattle.std.specs.Prelude.{◌≡◌, ◌+◌, ◌-◌, ◌^◌, ◌<◌, ◌≤◌, IfSome, MatchOption};
ghost use Rattle.r4_base.specs.Key.{IsKey, offset_of, rank};
ghost use Rattle.r4_content.specs.Bodies.{larger, smaller};
ghost use Rattle.r4_content.specs.Edited.{is_between};
ghost use Rattle.r4_leaf_edits.specs.Making.{range_of};

use r4_base::Key;
use r4_reach::KeyRange;

/// Whether a key lies in a range (docs/volume.md, "Which edits a leaf gets").
pub fn has(range: &KeyRange, key: Key) -> bool
    ensures { result ≡ is_between (rank range.now.from) (rank range.now.to) (rank key) }
{
    !key.is_below(range.from) && key.is_below(range.to)
}

/// The keys from one on and below another that lie in a range, if there are any (docs/volume.md, "Which edits a leaf
/// gets").
pub fn part_of(range: &KeyRange, from: Key, to: Key) -> Option<KeyRange>
    ensures part { MatchOption result
        (smaller (rank range.now.to) (rank to) ≤ larger (rank range.now.from) (rank from))
        (λ r. (rank r.from ≡ larger (rank range.now.from) (rank from))
        × (rank r.to ≡ smaller (rank range.now.to) (rank to)) × (rank r.from < rank r.to)) }
    ensures key { IfSome result (λ r. IsKey r.from) }
{
    let from = higher(range.from, from);
    let to = lower(range.to, to);
    from.is_below(to).then_some(KeyRange { from, to })
}

/// The higher one of two keys.
pub(crate) fn higher(a: Key, b: Key) -> Key
    ensures rank { rank result ≡ larger (rank a) (rank b) }
    ensures key { IsKey result }
{
    if a.is_below(b) { b } else { a }
}

// The lower one of two keys.
fn lower(a: Key, b: Key) -> Key
    ensures { rank result ≡ smaller (rank a) (rank b) }
{
    if a.is_below(b) { a } else { b }
}

/// How many keys one is behind another, in the same body.
#[tactic(auto, unfolding(r4_base::specs::Key::rank))]
pub(crate) fn distance(from: &Key, to: &Key) -> u64
    requires order { rank from.now ≤ rank to.now }
    requires near { offset_of from.now + (rank to.now - rank from.now) < 2 ^ 64 }
    ensures { result ≡ rank to.now - rank from.now }
{
    to.el[3] - from.el[3]
}

/// The next key. There is one, since a key is above.
#[tactic(auto, unfolding(r4_base::specs::Key::rank))]
pub(crate) fn next_key(key: Key, above: Key) -> Key
    requires { rank key < rank above }
    ensures { rank result ≡ rank key + 1 }
{
    let _ = above;
    let [el0, el1, el2, el3] = key.el;
    let el = if el3 < u64::MAX {
        [el0, el1, el2, el3 + 1]
    } else if el2 < u64::MAX {
        [el0, el1, el2 + 1, 0]
    } else if el1 < u64::MAX {
        [el0, el1 + 1, 0, 0]
    } else {
        [el0 + 1, 0, 0, 0]
    };
    Key { el }
}
