//! Whether edits change only keys such as items may have (docs/layout.md, "Keys").

ghost use Rattle.std.specs.Prelude.{◌≡◌, ◌+◌, ◌&&◌, ◌↔◌, length, nat_le, nat_lt, true};
ghost use Rattle.std.specs.List.{list_all};
ghost use Rattle.r4_base.specs.Key.{least, rank, top};
ghost use Rattle.r4_content.specs.Held.{edits_of, interval_of};
ghost use Rattle.r4_put_tasks.specs.LawfulKeys.{is_lawful};
ghost use Rattle.r4_turned_tasks.specs.r4_task_moves.r4_extent_moves.r4_applied.r4_build.Building.{HaveLawfulKeys};

use r4_base::{Key, ROOT_OBJECT, Value};
use r4_content::{ByteRun, Edits, FilledInterval, Interval};

/// Whether each key that the edits set or take away is one that an item may have: none before that
/// of the root directory's stat data, and none that is the key of four greatest numbers or behind
/// it. It takes no step for each byte, and no memory (docs/layout.md, "Keys"; docs/volume.md,
/// "Bodies in extents").
pub fn have_lawful_keys(edits: &Edits) -> bool
    ensures { (result ≡ true) ↔ HaveLawfulKeys (edits_of edits.now) }
{
    put_lawful_keys(edits) && take_lawful_keys(edits)
}

// Whether each key that gets a byte of a fill or of a run, or a value, is lawful.
fn put_lawful_keys(edits: &Edits) -> bool
    ensures { result ≡ (list_all (λ f. is_lawful (rank f.from, rank f.to)) edits.now.fills.items
        && (list_all (λ r. is_lawful (rank r.from, rank r.from + length r.bytes))
        edits.now.runs.items
        && list_all (λ p. is_lawful (rank p.0, rank p.0 + 1)) edits.now.puts.items)) }
{
    fills_are_lawful(edits.fills.as_slice())
        && (runs_are_lawful(edits.runs.as_slice()) && values_are_lawful(edits.puts.as_slice()))
}

// Whether each key that gets the byte 0, or is taken away, is lawful.
fn take_lawful_keys(edits: &Edits) -> bool
    ensures { result ≡ (list_all (λ i. is_lawful (interval_of i)) edits.now.zeros.items
        && list_all (λ i. is_lawful (interval_of i)) edits.now.cuts.items) }
{
    intervals_are_lawful(edits.zeros.as_slice()) && intervals_are_lawful(edits.cuts.as_slice())
}

// Whether each of the intervals has only lawful keys.
fn intervals_are_lawful(intervals: &[Interval]) -> bool
    ensures { result ≡ list_all (λ i. is_lawful (interval_of i)) intervals.now }
{
    intervals.iter().all(|i| ends_are_lawful(i.from, i.to))
}

// Whether each of the fills has only lawful keys.
fn fills_are_lawful(fills: &[FilledInterval]) -> bool
    ensures { result ≡ list_all (λ f. is_lawful (rank f.from, rank f.to)) fills.now }
{
    fills.iter().all(|f| ends_are_lawful(f.from, f.to))
}

// Whether each of the runs has only lawful keys.
fn runs_are_lawful(runs: &[ByteRun]) -> bool
    ensures { result
        ≡ list_all (λ r. is_lawful (rank r.from, rank r.from + length r.bytes)) runs.now }
{
    runs.iter().all(|r| run_is_lawful(r))
}

// Whether a run has only lawful keys.
fn run_is_lawful(run: &ByteRun) -> bool
    ensures { result ≡ is_lawful (rank run.now.from, rank run.now.from + length run.now.bytes) }
{
    are_lawful(run.from, run.bytes.as_slice().len() as u64)
}

// Whether each of the values has a lawful key.
fn values_are_lawful(values: &[(Key, Value)]) -> bool
    ensures { result ≡ list_all (λ p. is_lawful (rank p.0, rank p.0 + 1)) values.now }
{
    values.iter().all(|p| are_lawful(p.0, 1))
}

// Whether the keys from one on and below another are lawful. No key is above that of four greatest
// numbers, so these end in time.
fn ends_are_lawful(from: Key, to: Key) -> bool
    ensures { result ≡ is_lawful (rank from, rank to) }
{
    !from.is_below(to) || !is_before_all(from)
}

// Whether so many keys from one on are lawful.
fn are_lawful(from: Key, count: u64) -> bool
    ensures { result ≡ is_lawful (rank from, rank from + count) }
{
    count == 0 || (!is_before_all(from) && ends_in_time(from, count))
}

// Whether a key comes before the least one of all, that of the root directory's stat data.
fn is_before_all(key: Key) -> bool
    ensures { result ≡ nat_lt (rank key) least }
{
    key.is_below(Key::stat(ROOT_OBJECT.locality, ROOT_OBJECT.ordering, ROOT_OBJECT.oid))
}

// Whether so many keys from one on end at the key of four greatest numbers at the latest. Only
// those from a key that differs from it in its offset at most may go past it.
#[tactic(auto, unfolding(r4_base::specs::Key::rank, r4_base::specs::Key::top))]
fn ends_in_time(from: Key, count: u64) -> bool
    ensures { result ≡ nat_le (rank from + count) top }
{
    let [locality, ordering, object, offset] = from.el;
    if locality < u64::MAX || ordering < u64::MAX || object < u64::MAX {
        return true;
    }
    count <= u64::MAX - offset
}
