//! The edits of a command that lie in leaves, where its body stands in extents (docs/volume.md, "Bodies in extents").

ghost use Rattle.std.specs.Prelude.{◌≡◌, ◌++◌, ◌∷◌, [], map, not, IfOk, OnOk};
ghost use Rattle.std.specs.List.{filter};
ghost use Rattle.r4_content.specs.Held.{edits_of, interval_of, pair_of};
ghost use Rattle.r4_build.specs.r4_leaf_edits.Suiting.{is_byte};
ghost use Rattle.r4_build.specs.r4_measure.r4_reach.Reach.{is_body};
ghost use Rattle.r4_extent_change.specs.Beside.{without_bytes};

use r4_base::{Key, Memory, Value};
use r4_content::{Edits, Interval, Reply};
use r4_extent_counts::is_of_body;
use std::alloc::Global;

/// The edits without the bytes that they put, and without what they take of a body: attributes and entries, which lie
/// in leaves also where the body stands in extents. Names are shared. They have no reply. The only error is want of
/// memory (docs/volume.md, "Bodies in extents").
pub fn without_bytes(alloc: Global, edits: &Edits) -> Result<Edits, Memory>
    ensures { IfOk result (λ x. edits_of x ≡ without_bytes (edits_of edits.now)) }
{
    let mut cuts = Vec::new(alloc);
    cut_each(&mut cuts, edits.cuts.as_slice())?;
    let mut puts = Vec::new(alloc);
    put_each(&mut puts, edits.puts.as_slice())?;
    Ok(Edits {
        cuts,
        zeros: Vec::new(alloc),
        fills: Vec::new(alloc),
        runs: Vec::new(alloc),
        puts,
        reply: Reply::Okay,
    })
}

// Puts those intervals behind others that do not begin with a body's key.
fn cut_each(cuts: &mut Vec<Interval>, all: &[Interval]) -> Result<(), Memory>
    ensures { OnOk result (map interval_of cuts.new.items ≡ map interval_of cuts.old.items
        ++ filter (λ r. not (is_body r.0)) (map interval_of all.now)) }
{
    match all.split_first() {
        None => Ok(()),
        Some((first, rest)) => {
            cut(cuts, first)?;
            cut_each(cuts, rest)
        }
    }
}

// Puts an interval behind others, where it does not begin with a body's key.
fn cut(cuts: &mut Vec<Interval>, interval: &Interval) -> Result<(), Memory>
    ensures { OnOk result (map interval_of cuts.new.items ≡ map interval_of cuts.old.items
        ++ filter (λ r. not (is_body r.0)) (interval_of interval.now ∷ [])) }
{
    if is_of_body(interval.from) {
        return Ok(());
    }
    cuts.push(*interval)?;
    Ok(())
}

// Puts those values behind others that are no bytes.
fn put_each(puts: &mut Vec<(Key, Value)>, all: &[(Key, Value)]) -> Result<(), Memory>
    ensures { OnOk result (map pair_of puts.new.items ≡ map pair_of puts.old.items
        ++ filter (λ p. not (is_byte p.1)) (map pair_of all.now)) }
{
    match all.split_first() {
        None => Ok(()),
        Some((first, rest)) => {
            put(puts, first)?;
            put_each(puts, rest)
        }
    }
}

// Puts a value behind others, where it is no byte.
fn put(puts: &mut Vec<(Key, Value)>, pair: &(Key, Value)) -> Result<(), Memory>
    ensures { OnOk result (map pair_of puts.new.items ≡ map pair_of puts.old.items
        ++ filter (λ p. not (is_byte p.1)) (pair_of pair.now ∷ [])) }
{
    let (key, value) = pair;
    let shared = match value {
        Value::Attr(attr) => Value::Attr(*attr),
        Value::Entry(name, target) => Value::Entry(name.share()?, *target),
        Value::Byte(_) => return Ok(()),
    };
    puts.push((*key, shared))?;
    Ok(())
}
