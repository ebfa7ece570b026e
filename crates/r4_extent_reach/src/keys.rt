//! Keys that are met or read (docs/volume.md, "Reach").

ghost use Rattle.std.specs.Prelude.{◌≡◌, ◌||◌, ◌<◌, ◌≤◌, ℕ, IfOk, OnOk, map};
ghost use Rattle.r4_base.specs.Key.{least, top};
ghost use Rattle.r4_extent_asks.specs.r4_bodies.Told.{intervals_of};
ghost use Rattle.r4_content.specs.Edited.{is_in};
ghost use Rattle.r4_content.specs.Held.{interval_of};
ghost use Rattle.r4_extent_reaching.specs.r4_touching.Changed.{AddsKeys};

use r4_base::Memory;
use r4_content::Interval;
use std::alloc::Global;

/// The keys of whose cells are met: the one that tells where the body stands, if there is one, and those that change.
pub(crate) fn keys_to_touch(
    alloc: Global,
    read: Option<Interval>,
    changes: &[Interval],
) -> Result<Vec<Interval>, Memory>
    ensures { IfOk result (λ v. (k : ℕ) → least ≤ k → k < top
        → is_in (map interval_of v.items) k
        ≡ (is_in (intervals_of read) k || is_in (map interval_of changes.now) k)) }
{
    let mut keys = Vec::new(alloc);
    add_read(&mut keys, read)?;
    keys.extend_from_slice(changes)?;
    Ok(keys)
}

/// A key that is read comes behind the others.
pub(crate) fn add_read(keys: &mut Vec<Interval>, read: Option<Interval>) -> Result<(), Memory>
    ensures { OnOk result (AddsKeys keys.old.items (intervals_of read) keys.new.items) }
{
    if let Some(read) = read {
        keys.push(read)?;
    }
    Ok(())
}
