//! The body of a file, with its sizes (docs/volume.md, "Reach").

ghost use Rattle.std.specs.Prelude.{◌≡◌, ◌+◌, ◌-◌, ◌/◌, ◌^◌, ◌≤◌, ◌&&◌, true, nat_lt, Some, if◌then◌else◌};
ghost use Rattle.std.specs.Option.{option_map};
ghost use Rattle.r4_base.specs.Key.{minor_of, offset_of, rank};
ghost use Rattle.r4_base.specs.Volume.{blocks_for, object_of};
ghost use Rattle.r4_content.specs.Edited.{is_between};
ghost use Rattle.r4_content.specs.Held.{interval_of};
ghost use Rattle.r4_bodies.specs.r4_leaf_edits.Made.{spread_keys};
ghost use Rattle.r4_bodies.specs.r4_leaf_edits.r4_reach.Reach.{is_body};
ghost use Rattle.r4_bodies.specs.r4_leaf_edits.r4_reach.Touched.{Body, blocks_end, coming, first_byte, going, is_spread, turns_out};
ghost use Rattle.r4_extent_demands.specs.Sizes.{IsFirstKey, IsSizedBody};

use crate::keys::past_blocks;
use r4_base::{BLOCK_BYTES, Key};
use r4_bodies::{KeyRange, has};
use r4_content::Interval;
use std::marker::Model;

/// How many blocks the keys of a body span.
const BODY_BLOCKS: u64 = 1 << 52;

/// So many bytes of a body stand in tails at most.
const TAILS_END: u64 = 16384;

/// A file whose body is changed: the first of the body's keys that changes, the file's size in bytes before and after,
/// 0 where the file is not there, and whether the body stood in extents before (docs/volume.md, "Reach").
#[derive(Drop)]
pub struct SizedBody {
    first: Key,
    before: u64,
    after: u64,
    in_extents: bool,
}

impl Model for SizedBody {
    ghost use Rattle.r4_base.specs.Key.{rank};
    ghost use Rattle.r4_base.specs.Volume.{object_of};
    ghost use Rattle.r4_bodies.specs.r4_leaf_edits.r4_reach.Touched.{Body};

    ghost Value = { Body };

    ghost view = { λ b. record {
      file = object_of b.first;
      first = rank b.first;
      was = b.before;
      now = b.after;
      in_extents = b.in_extents;
    } };
}

impl SizedBody {
    /// The body of the file that has this key, where its size was so much before and is so much after, in bytes.
    pub fn new(first: Key, before: u64, after: u64, in_extents: bool) -> SizedBody
        ensures { result ≡ record {
          file = object_of first;
          first = rank first;
          was = before;
          now = after;
          in_extents = in_extents;
        } }
    {
        SizedBody {
            first,
            before,
            after,
            in_extents,
        }
    }

    /// The keys of the blocks that come where no extent was: none where the body stands in no extents afterwards
    /// (docs/volume.md, "Reach").
    pub fn coming(&self) -> KeyRange
        requires { IsSizedBody self.now }
        ensures from { rank result.from ≡ (coming self.now).0 }
        ensures to { rank result.to ≡ (coming self.now).1 }
        ensures near { offset_of result.from ≤ 2 ^ 30 }
        ensures body { is_spread self.now ≡ true → minor_of result.from ≡ 4 }
    {
        if !self.is_spread() {
            return no_keys();
        }
        KeyRange {
            from: self.blocks_end(self.left_before()),
            to: self.blocks_end(self.after),
        }
    }

    /// How many blocks come where no extent was (docs/volume.md, "Reach").
    pub fn blocks_coming(&self) -> u64
        requires { IsSizedBody self.now }
        ensures count { result ≡ ((coming self.now).1 - (coming self.now).0) / 4096 }
        ensures few { result ≤ 2 ^ 18 }
    {
        if !self.is_spread() {
            return 0;
        }
        blocks_for(self.after).saturating_sub(blocks_for(self.left_before()))
    }

    /// The keys of the blocks that go; none where the body stood in no extents (docs/volume.md, "Reach").
    pub fn going(&self) -> KeyRange
        requires { IsSizedBody self.now }
        ensures from { rank result.from ≡ (going self.now).0 }
        ensures to { rank result.to ≡ (going self.now).1 }
    {
        if !self.in_extents {
            return no_keys();
        }
        KeyRange {
            from: self.blocks_end(self.after),
            to: self.blocks_end(self.before),
        }
    }

    /// Whether the body stands in extents afterwards, if it is there (docs/volume.md, "Reach").
    pub fn is_spread(&self) -> bool
        ensures { result ≡ is_spread self.now }
    {
        self.in_extents || self.after > TAILS_END
    }

    /// Whether the body stood in extents before (docs/volume.md, "Reach").
    pub fn stood_in_extents(&self) -> bool
        ensures { result ≡ self.now.in_extents }
    {
        self.in_extents
    }

    /// Whether the body comes to extents, and stood in none (docs/volume.md, "Reach").
    pub fn turns_out(&self) -> bool
        ensures { result ≡ turns_out self.now }
    {
        self.is_spread() && !self.in_extents
    }

    /// All keys that the body may have, where it stands in extents afterwards.
    pub(crate) fn spread_keys(&self) -> Option<Interval>
        requires { IsSizedBody self.now }
        ensures { option_map interval_of result ≡ spread_keys (Some self.now) }
    {
        self.is_spread().then_some(self.all_keys())
    }

    /// All keys that the body may have.
    pub(crate) fn all_keys(&self) -> Interval
        requires { IsSizedBody self.now }
        ensures from { rank result.from ≡ first_byte self.now }
        ensures to { rank result.to ≡ first_byte self.now + 2 ^ 64 }
        ensures first { IsFirstKey self.now result.from }
    {
        let from = self.first_byte();
        Interval {
            from,
            to: past_blocks(from, BODY_BLOCKS),
        }
    }

    /// Whether a key may be one of the body's (docs/layout.md, "Keys").
    pub fn has(&self, key: Key) -> bool
        requires { IsSizedBody self.now }
        ensures is { result
            ≡ is_between (first_byte self.now) (first_byte self.now + 2 ^ 64) (rank key) }
        ensures body { result ≡ true → minor_of key ≡ 4 }
    {
        let all = self.all_keys();
        let range = KeyRange {
            from: all.from,
            to: all.to,
        };
        has(&range, key)
    }

    /// Whether the body comes out of tails that had a byte from a key on.
    pub(crate) fn had_tails(&self, key: Key) -> bool
        requires { IsSizedBody self.now }
        ensures { result
            ≡ (turns_out self.now && nat_lt (rank key) (first_byte self.now + self.now.was)) }
    {
        self.turns_out() && key.is_below(self.first_byte().behind(self.before))
    }

    /// The key of the body's first byte (docs/layout.md, "Keys").
    pub fn first_byte(&self) -> Key
        requires { IsSizedBody self.now }
        ensures { IsFirstKey self.now result }
    {
        first_of(self.first)
    }

    // The size of what stays in extents as it was, 0 where nothing stood in extents.
    fn left_before(&self) -> u64
        ensures is { result ≡ (if self.now.in_extents then self.now.was else 0) }
    {
        if self.in_extents { self.before } else { 0 }
    }

    // The key at which the blocks end that a body of so many bytes has.
    fn blocks_end(&self, size: u64) -> Key
        requires body { IsSizedBody self.now }
        requires size { size ≤ 2 ^ 30 }
        ensures rank { rank result ≡ blocks_end self.now size }
        ensures near { offset_of result ≤ 2 ^ 30 }
        ensures body { minor_of result ≡ 4 }
    {
        self.first_byte().behind(BLOCK_BYTES * blocks_for(size))
    }
}

// A range that has no keys.
#[tactic(auto, unfolding(r4_base::specs::Key::rank))]
fn no_keys() -> KeyRange
    ensures from { rank result.from ≡ 0 }
    ensures to { rank result.to ≡ 0 }
    ensures begins { offset_of result.from ≡ 0 }
{
    let none = Key { el: [0; 4] };
    KeyRange {
        from: none,
        to: none,
    }
}

// The key of the first byte of the body that has a key.
fn first_of(key: Key) -> Key
    requires { is_body (rank key) ≡ true }
    ensures { (b : Body) → object_of key ≡ b.file → IsFirstKey b result }
{
    key.with_offset(0)
}

// How many blocks a body of so many bytes has.
fn blocks_for(size: u64) -> u64
    requires { size ≤ 2 ^ 30 }
    ensures { result ≡ blocks_for size }
{
    size.div_ceil(BLOCK_BYTES)
}
