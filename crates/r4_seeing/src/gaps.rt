//! Which keys are known already.

ghost use Rattle.std.specs.Prelude.{◌≡◌, ◌<◌, ◌≤◌, map};
ghost use Rattle.r4_base.specs.Key.{rank};
ghost use Rattle.r4_content.specs.Edited.{is_between};
ghost use Rattle.r4_content.specs.Held.{interval_of};
ghost use Rattle.r4_seeing.specs.Known.{IsGap};

use r4_base::Key;
use r4_content::Interval;

/// Whether the keys from one on are known or new, and up to which key all of them are.
#[derive(Clone, Copy)]
pub(crate) enum Gap {
    Known(Key),
    New(Key),
}

/// Whether the keys from one on are among those of the intervals, or not; and how far. New ones end where an
/// interval begins, or at `to`.
pub(crate) fn how_far(known: &[Interval], from: Key, to: Key) -> Gap
    requires order { rank from < rank to }
    ensures { IsGap (map interval_of known.now) (rank from) (rank to) result }
{
    let mut end = to;
    for interval in known {
        if has(interval, from) {
            return Gap::Known(interval.to);
        }
        end = nearer(from, interval.from, end);
    }
    Gap::New(end)
}

// Whether a key is one of an interval.
fn has(interval: &Interval, key: Key) -> bool
    ensures { result ≡ is_between (rank interval.now.from) (rank interval.now.to) (rank key) }
{
    !key.is_below(interval.from) && key.is_below(interval.to)
}

// Where an interval begins that is above the first key and before an end, else the end.
fn nearer(from: Key, begin: Key, end: Key) -> Key
    requires { rank from < rank end }
    ensures onward { rank from < rank result }
    ensures within { rank result ≤ rank end }
    ensures before { rank from < rank begin → rank result ≤ rank begin }
{
    if from.is_below(begin) && begin.is_below(end) {
        begin
    } else {
        end
    }
}
