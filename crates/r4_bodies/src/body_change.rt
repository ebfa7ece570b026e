//! The body that a command's edits change (docs/volume.md, "Reach").

ghost use Rattle.std.specs.Prelude.{◌≡◌, ◌^◌, ◌<◌, IfSome, Some, false};
ghost use Rattle.std.specs.Option.{option_map};
ghost use Rattle.r4_content.specs.Edited.{changed};
ghost use Rattle.r4_content.specs.Held.{edits_of, pairs_of};
ghost use Rattle.r4_content.specs.Seen.{Rises};
ghost use Rattle.r4_leaf_demands.specs.r4_leaf_edits.Suiting.{SuitLeaves};
ghost use Rattle.r4_leaf_demands.specs.r4_reach.Touched.{body_key, body_of, is_spread, kind_reads};
ghost use Rattle.r4_bodies.specs.Told.{intervals_of};

use crate::finding::first_key;
use crate::keys::{byte_of, stat_of};
use crate::sizes::{size_after, size_at};
use r4_base::{Key, TAIL_END};
use r4_content::{Edits, Interval, Seen};
use std::marker::Model;

/// A file whose body is changed, as it is where nothing of the body stands in extents before (docs/volume.md, "Reach").
#[derive(Drop)]
pub struct BodyChange {
    /// The first of the body's keys that changes.
    pub first: Key,
    /// The file's size in bytes before, 0 where the file is not there.
    pub before: u64,
    /// The file's size in bytes afterwards, 0 where the file is not there.
    pub after: u64,
}

impl Model for BodyChange {
    ghost use Rattle.std.specs.Prelude.{false};
    ghost use Rattle.r4_base.specs.Key.{rank};
    ghost use Rattle.r4_base.specs.Volume.{object_of};
    ghost use Rattle.r4_leaf_demands.specs.r4_reach.Touched.{Body};

    ghost Value = { Body };

    ghost view = { λ b. record {
      file = object_of b.first;
      first = rank b.first;
      was = b.before;
      now = b.after;
      in_extents = false;
    } };
}

impl BodyChange {
    /// Whether the body stands in extents afterwards: where it has more than 16,384 bytes (docs/volume.md, "Reach").
    pub fn is_spread(&self) -> bool
        ensures { result ≡ is_spread self.now }
    {
        self.after > TAIL_END
    }

    /// The key of the file's last byte before, where a file that is not empty becomes longer: it tells where the body
    /// stands (docs/volume.md, "Reach").
    pub fn kind_read(&self) -> Option<Interval>
        ensures { intervals_of result ≡ kind_reads (Some self.now) }
    {
        if 0 < self.before && self.before < self.after {
            Some(Interval {
                from: byte_of(self.first, self.before - 1),
                to: byte_of(self.first, self.before),
            })
        } else {
            None
        }
    }
}

/// The file whose body a command's edits change, as it is where nothing of the body stands in extents before, on what
/// was seen: that of the first key of a body that is set or taken away, in the order of fills, runs, values, zeros and
/// cuts. The bytes that are set are bytes of bodies. A step is taken for each fill, run, value and interval, but none
/// for a byte; what was seen is looked up once, by halves (docs/volume.md, "Reach").
pub fn body_changed(edits: &Edits, seen: &Seen) -> Option<BodyChange>
    requires rises { Rises (pairs_of seen.now) }
    requires suits { SuitLeaves (2 ^ 64) (edits_of edits.now) }
    ensures body { result ≡ option_map (body_of (edits_of edits.now) (pairs_of seen.now) false)
        (body_key (changed (edits_of edits.now))) }
    ensures sizes { IfSome result (λ b. (b.was < 2 ^ 64) × (b.now < 2 ^ 64)) }
{
    let first = first_key(edits)?;
    let stat = stat_of(first);
    let before = size_at(seen, stat);
    let after = size_after(edits, stat, before);
    Some(BodyChange {
        first,
        before,
        after,
    })
}
