//! Parts that are put among those that were seen.

ghost use Rattle.std.specs.Prelude.{◌≡◌, ◌+◌, ◌∷◌, ◌++◌, ◌≤◌, [], drop, length, take, OnErr, OnOk};
ghost use Rattle.std.specs.Prelude.{vec_capacity, vec_len};
ghost use Rattle.r4_base.specs.Key.{rank};
ghost use Rattle.r4_seeing.specs.Known.{IsNoted, IsPlaceFor, part_key};

use r4_base::{Key, Memory};
use r4_content::{Interval, Seen, SeenPart};

/// Puts parts with the keys of an interval among the others, at their place, and the interval behind those that are
/// known. Where there is no memory both stay.
pub(crate) fn note(
    seen: &mut Seen,
    known: &mut Vec<Interval>,
    within: Interval,
    parts: Vec<SeenPart>,
) -> Result<(), Memory>
    ensures ok { OnOk result (IsNoted (rank within.from) seen.old.parts.items parts.items
        seen.new.parts.items) }
    ensures known { OnOk result (known.new.items ≡ known.old.items ++ within ∷ []) }
    ensures same { OnErr result (seen.new.parts.items ≡ seen.old.parts.items) }
    ensures still { OnErr result (known.new.items ≡ known.old.items) }
{
    seen.parts.reserve(parts.len())?;
    known.push(within)?;
    let at = place_for(&seen.parts, within.from);
    put_in(&mut seen.parts, at, parts);
    Ok(())
}

// Where parts with keys from one on go: before the parts at the end whose first keys are above it. Most parts are put
// there.
fn place_for(parts: &[SeenPart], from: Key) -> usize
    ensures { IsPlaceFor parts.now (rank from) result }
{
    let mut at = parts.len();
    while at > 0 {
        if !from.is_below(first_key(&parts[at - 1])) {
            return at;
        }
        at -= 1;
    }
    0
}

// The key of a part, or the first one of a run.
fn first_key(part: &SeenPart) -> Key
    ensures { result ≡ part_key part.now }
{
    match part {
        SeenPart::One { key, value: _ } => *key,
        SeenPart::Run(run) => run.from,
    }
}

// Puts parts at a place among the others, which have room for them.
fn put_in(parts: &mut Vec<SeenPart>, at: usize, mut more: Vec<SeenPart>)
    requires within { at ≤ length parts.old.items }
    requires room { vec_len parts.old + vec_len more ≤ vec_capacity parts.old }
    ensures { parts.new.items
        ≡ take at parts.old.items ++ (more.items ++ drop at parts.old.items) }
{
    while let Some(part) = more.pop() {
        match parts.insert(at, part) {
            Ok(()) => {}
            Err(_) => unreachable!(),
        }
    }
}
