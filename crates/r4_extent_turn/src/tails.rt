//! What stood in leaves, as edits that put it (docs/volume.md, "Bodies in extents").

ghost use Rattle.std.specs.Prelude.{◌≡◌, ℕ, List, Contains, IfOk, OnOk, map};
ghost use Rattle.std.specs.Arc.{arc_value};
ghost use Rattle.std.specs.List.{flat_map};
ghost use Rattle.std.specs.Option.{option_or};
ghost use Rattle.r4_base.specs.Key.{rank};
ghost use Rattle.r4_base.specs.Value.{Value as ValueSeen, value_of};
ghost use Rattle.r4_extent_build.specs.r4_cell.Seen.{CellSeen, node_of};
ghost use Rattle.r4_content.specs.Held.{edits_of, part_pairs, run_pairs};
ghost use Rattle.r4_content.specs.Seen.{pairs_in};
ghost use Rattle.r4_extent_build.specs.r4_extent_blocks.Setting.{byte_of, byte_set, last_put};
ghost use Rattle.r4_extent_turn.specs.Gathering.{Adds, byte_pair, units_within};

use r4_base::{Bytes, Key, Memory, Value};
use r4_content::{ByteRun, Edits, Interval, Reply, SeenPart};
use r4_extent_build::Cell;
use r4_sight::parts_of;
use std::alloc::Global;
use std::sync::Arc;

/// The bytes that stand in leaves at the keys of an interval, as edits that put them there. They
/// are held in runs, so no step is taken for a byte. The only error is want of memory.
pub(crate) fn tails_in(
    alloc: Global,
    leaves: &[Arc<Cell>],
    within: Interval,
) -> Result<Edits, Memory>
    requires { (c : CellSeen) → Contains (map (λ c. arc_value c) leaves.now) c → c.level ≡ 1 }
    ensures { IfOk result (λ e. (k : ℕ) → byte_set (edits_of e) k ≡ last_put
        (units_within (rank within.from) (rank within.to) (map (λ c. arc_value c) leaves.now)) k) }
{
    let mut runs = Vec::new(alloc);
    add_leaves(alloc, &mut runs, leaves, within)?;
    Ok(Edits {
        cuts: Vec::new(alloc),
        zeros: Vec::new(alloc),
        fills: Vec::new(alloc),
        runs,
        puts: Vec::new(alloc),
        reply: Reply::Okay,
    })
}

// Puts the bytes of leaves behind other runs.
fn add_leaves(
    alloc: Global,
    runs: &mut Vec<ByteRun>,
    leaves: &[Arc<Cell>],
    within: Interval,
) -> Result<(), Memory>
    requires { (c : CellSeen) → Contains (map (λ c. arc_value c) leaves.now) c → c.level ≡ 1 }
    ensures { OnOk result (Adds runs.old.items (units_within (rank within.from) (rank within.to)
        (map (λ c. arc_value c) leaves.now)) runs.new.items) }
{
    match leaves.split_first() {
        None => Ok(()),
        Some((first, rest)) => {
            add_leaf(alloc, runs, first, within)?;
            add_leaves(alloc, runs, rest, within)
        }
    }
}

// Puts the bytes of a leaf behind other runs.
fn add_leaf(
    alloc: Global,
    runs: &mut Vec<ByteRun>,
    leaf: &Cell,
    within: Interval,
) -> Result<(), Memory>
    requires { leaf.now.level ≡ 1 }
    ensures { OnOk result (Adds runs.old.items
        (pairs_in (node_of leaf.now).units (rank within.from) (rank within.to)) runs.new.items) }
{
    let parts = parts_of(alloc, leaf, within)?;
    add_parts(alloc, runs, parts.as_slice())
}

// Puts the bytes of what was seen behind other runs.
fn add_parts(alloc: Global, runs: &mut Vec<ByteRun>, parts: &[SeenPart]) -> Result<(), Memory>
    ensures { OnOk result (Adds runs.old.items (flat_map part_pairs parts.now) runs.new.items) }
{
    match parts.split_first() {
        None => Ok(()),
        Some((first, rest)) => {
            add_part(alloc, runs, first)?;
            add_parts(alloc, runs, rest)
        }
    }
}

// Puts the bytes of a part behind other runs. What a run has is shared.
fn add_part(alloc: Global, runs: &mut Vec<ByteRun>, part: &SeenPart) -> Result<(), Memory>
    ensures { OnOk result (Adds runs.old.items (part_pairs part.now) runs.new.items) }
{
    match part {
        SeenPart::Run(run) => {
            let bytes = run.bytes.share()?;
            runs.push(ByteRun {
                from: run.from,
                bytes,
            })?;
            Ok(())
        }
        SeenPart::One { key, value } => match value {
            Value::Byte(byte) => add_byte(alloc, runs, key, *byte),
            _ => Ok(()),
        },
    }
}

// Puts a byte behind other runs.
fn add_byte(alloc: Global, runs: &mut Vec<ByteRun>, key: &Key, byte: u8) -> Result<(), Memory>
    ensures { OnOk result (Adds runs.old.items (byte_pair (rank key.now) byte) runs.new.items) }
{
    let mut bytes = Vec::with_capacity(alloc, 1)?;
    bytes.push(byte)?;
    let bytes = Bytes::from_vec(alloc, bytes)?;
    runs.push(ByteRun { from: *key, bytes })?;
    Ok(())
}
