//! The keys that count as changed (docs/volume.md, "Reach").

ghost use Rattle.std.specs.Prelude.{◌≡◌, ℕ, ◌<◌, ◌≤◌, ◌∷◌, [], IfOk, OnOk, Some, map};
ghost use Rattle.std.specs.Option.{option_copied};
ghost use Rattle.r4_base.specs.Key.{top};
ghost use Rattle.r4_content.specs.Edited.{changed, is_in};
ghost use Rattle.r4_content.specs.Held.{edits_of, interval_of};
ghost use Rattle.r4_twig_asks.specs.r4_reach.Touched.{raw_changes, with_blocks};
ghost use Rattle.r4_twig_asks.specs.r4_extent_demands.Sizes.{AreExtentEdits, IsSizedBody};
ghost use Rattle.r4_extent_asks.specs.Widening.{AddsKeys};

use crate::blocks::{block_end, block_start};
use crate::intervals::intervals_of;
use r4_base::Memory;
use r4_content::{Edits, Interval};
use r4_twig_asks::{SizedBody, is_of_body};
use std::alloc::Global;

/// The keys of a tree that count as changed by a command's edits of this body, if one: the keys of the edits, where the
/// body stands in extents afterwards with the whole of each of its blocks, and where it turns to these with all of its
/// blocks. An interval stands for each interval, fill, run and value of the edits, and no step is taken for a byte. The
/// only error is want of memory (docs/volume.md, "Reach").
pub fn changes_of(
    alloc: Global,
    edits: &Edits,
    body: Option<&SizedBody>,
) -> Result<Vec<Interval>, Memory>
    requires { AreExtentEdits (option_copied body) (edits_of edits.now) }
    ensures { IfOk result (λ v. (k : ℕ) → k < top → is_in (map interval_of v.items) k
        ≡ is_in (raw_changes (option_copied body.entry) (changed (edits_of edits.now))) k) }
{
    let keys = intervals_of(alloc, edits)?;
    match body {
        Some(body) => in_blocks(alloc, body, keys),
        None => Ok(keys),
    }
}

// The keys of intervals, and all that counts as changed by them where this body changes.
fn in_blocks(alloc: Global, body: &SizedBody, keys: Vec<Interval>) -> Result<Vec<Interval>, Memory>
    requires { IsSizedBody body.now }
    ensures { IfOk result (λ v. (k : ℕ) → k < top → is_in (map interval_of v.items) k
        ≡ is_in (raw_changes (Some body.now) (map interval_of keys.items)) k) }
{
    if !body.is_spread() {
        return Ok(keys);
    }
    let mut all = Vec::new(alloc);
    if body.turns_out() {
        let coming = body.coming();
        all.push(Interval {
            from: coming.from,
            to: coming.to,
        })?;
    }
    add_widened(&mut all, body, keys.as_slice())?;
    Ok(all)
}

// The keys of intervals come behind the others, with the whole of each block of a body.
fn add_widened(keys: &mut Vec<Interval>, body: &SizedBody, more: &[Interval]) -> Result<(), Memory>
    requires { IsSizedBody body.now }
    ensures { OnOk result (AddsKeys keys.old.items
        (map (with_blocks body.now) (map interval_of more.now)) keys.new.items) }
{
    match more.split_first() {
        None => Ok(()),
        Some((first, rest)) => {
            keys.push(widened(body, first))?;
            add_widened(keys, body, rest)
        }
    }
}

// An interval, with the whole of each of its blocks where it begins in a body.
fn widened(body: &SizedBody, keys: &Interval) -> Interval
    requires { IsSizedBody body.now }
    ensures { (k : ℕ) → k < top → is_in (interval_of result ∷ []) k
        ≡ is_in (with_blocks body.now (interval_of keys.now) ∷ []) k }
{
    if !is_of_body(keys.from) {
        return *keys;
    }
    let first = body.first_byte();
    Interval {
        from: block_start(first, keys.from),
        to: block_end(first, keys.to),
    }
}
