//! Which blocks of a body get bytes (docs/volume.md, "Reach").

ghost use Rattle.std.specs.Prelude.{◌≡◌, ℕ, ◌+◌, ◌*◌, ◌^◌, ◌<◌, ◌≤◌, ◌++◌, false, true, map};
ghost use Rattle.std.specs.List.{flat_map, list_any};
ghost use Rattle.r4_base.specs.Key.{minor_of, offset_of, rank};
ghost use Rattle.r4_content.specs.Edited.{is_between, put_keys};
ghost use Rattle.r4_content.specs.Held.{edits_of, pair_of, run_pairs};
ghost use Rattle.r4_bodies.specs.r4_leaf_edits.r4_reach.Needs.{gets_bytes, is_met};
ghost use Rattle.r4_extent_demands.specs.Sizes.{IsSizedBody};
ghost use Rattle.r4_extent_demands.specs.Pieces.{gets_among};

use crate::keys::past_blocks;
use crate::sized_body::SizedBody;
use r4_base::{BLOCK_BYTES, Key, Value};
use r4_bodies::{KeyRange, has, meets_fills, meets_runs};
use r4_content::Edits;

/// How many of so many blocks, from a key on, stand before the first one that gets bytes; all where none does. It is
/// looked for by halves.
pub(crate) fn blocks_before(body: &SizedBody, edits: &Edits, from: Key, count: u64) -> u64
    requires sized { IsSizedBody body.now }
    requires body { minor_of from ≡ 4 }
    requires fits { offset_of from + 4096 * count ≤ 2 ^ 64 }
    ensures within { result ≤ count }
    ensures none { (i : ℕ) → i < result
        → gets_bytes body.now (edits_of edits.now) (rank from + 4096 * i) ≡ false }
    ensures next { result < count
        → gets_bytes body.now (edits_of edits.now) (rank from + 4096 * result) ≡ true }
{
    if count == 0 {
        return 0;
    }
    if !gets_some(body, edits, from, count) {
        return count;
    }
    if count == 1 {
        return 0;
    }
    let half = count / 2;
    let before = blocks_before(body, edits, from, half);
    if before < half {
        return before;
    }
    half + blocks_before(body, edits, from.behind(BLOCK_BYTES * half), count - half)
}

/// Whether one of so many blocks, from a key on, gets bytes: some are put there, or the first one had some in tails
/// (docs/volume.md, "Reach").
pub fn gets_some(body: &SizedBody, edits: &Edits, from: Key, count: u64) -> bool
    requires sized { IsSizedBody body.now }
    requires body { minor_of from ≡ 4 }
    requires some { 1 ≤ count }
    requires fits { offset_of from + 4096 * count ≤ 2 ^ 64 }
    ensures { result ≡ gets_among body.now (edits_of edits.now) (rank from) count }
{
    let range = KeyRange {
        from,
        to: past_blocks(from, count),
    };
    puts_in(&range, edits) || body.had_tails(from)
}

/// Whether a key in a range gets a value of its own.
pub(crate) fn puts_in(range: &KeyRange, edits: &Edits) -> bool
    ensures { result ≡ is_met (put_keys (edits_of edits.now).puts)
        (rank range.now.from) (rank range.now.to) }
{
    meets_fills(range, edits.fills.as_slice()) || puts_one_by_one(range, edits)
}

// Whether a key in a range gets a byte of a run or a value.
fn puts_one_by_one(range: &KeyRange, edits: &Edits) -> bool
    ensures { result
        ≡ is_met (put_keys
        (flat_map run_pairs edits.now.runs.items ++ map pair_of edits.now.puts.items))
        (rank range.now.from) (rank range.now.to) }
{
    meets_runs(range, edits.runs.as_slice()) || meets_values(range, edits.puts.as_slice())
}

// Whether one of the values has its key in a range.
fn meets_values(range: &KeyRange, values: &[(Key, Value)]) -> bool
    ensures { result ≡ list_any
        (λ p. is_between (rank range.now.from) (rank range.now.to) (rank p.0)) values.now }
{
    values.iter().any(|put| has(range, put.0))
}
