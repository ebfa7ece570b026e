//! The body that a command's edits change, with where it stood before (docs/volume.md, "Reach").

ghost use Rattle.std.specs.Prelude.{◌≡◌, ◌<◌, ◌≤◌, ◌^◌, ℕ, IfErr, IfOk, IsTrue, ◌↔◌, true};
ghost use Rattle.std.specs.Option.{option_copied};
ghost use Rattle.r4_base.specs.Key.{rank};
ghost use Rattle.r4_extent_asks.specs.r4_bodies.Told.{intervals_of};
ghost use Rattle.r4_extent_reaching.specs.r4_touching.r4_reach.Touched.{Body, kind_reads, shown_at};
ghost use Rattle.r4_extent_asks.specs.r4_search.Path.{root_name};
ghost use Rattle.r4_extent_asks.specs.r4_search.Pool.{IsKnown, LeavesDevice};
ghost use Rattle.r4_extent_reaching.specs.r4_touching.Touching.{StopsFor, Touches};
ghost use Rattle.r4_extent_reaching.specs.Standing.{IsTooLong};
ghost use Rattle.r4_extent_reach.specs.Standing.{IsShown, IsStanding, IsStood, MayBeShown, kind_of};
ghost use Rattle.r4_extent_reach.specs.Standing.{shown_keys, standing};

use r4_base::Key;
use r4_content::Interval;
use r4_extent_asks::{BodyChange, FetchFault, Pool, SizedBody};
use r4_extent_reaching::{Root, stands_in_extents};
use std::alloc::Global;

/// How many bytes a file may have (docs/commands.md, "Bytes").
const GREATEST_SIZE: u64 = 1 << 30;

/// Whether a body that changes, if one does, had more bytes than a file may have.
pub(crate) fn is_too_long(change: Option<&BodyChange>) -> bool
    ensures { IsTrue result ↔ IsTooLong (option_copied change.entry) }
{
    match change {
        Some(body) => body.before > GREATEST_SIZE,
        None => false,
    }
}

/// The key that is read besides to tell where a body stands, if there is a body and it becomes longer.
pub(crate) fn kind_read(change: Option<&BodyChange>) -> Option<Interval>
    ensures { intervals_of result ≡ kind_reads (option_copied change.entry) }
{
    match change {
        Some(body) => body.kind_read(),
        None => None,
    }
}

/// The body that changes, if one does, with where it stood before. The cells on the way to the key that tells it are
/// met, and the block with it.
pub(crate) fn standing_body<P: Pool>(
    alloc: Global,
    pool: &mut P,
    root: &Root,
    change: Option<&BodyChange>,
) -> Result<Option<SizedBody>, FetchFault>
    requires some { 1 ≤ root.now.height }
    requires known { IsKnown (P.state pool.old) (root_name root.now) }
    requires keeps { (level : ℕ) → (P.state pool.old).keeps level ≡ true }
    requires shown { MayBeShown (option_copied change) }
    ensures device { LeavesDevice (P.device pool.old) (P.device pool.new) }
    ensures touches { Touches root.now (shown_keys (option_copied change.entry))
        (P.state pool.old) (P.state pool.new) }
    ensures stood { IfOk result (IsStood (P.state pool.new) (option_copied change.entry)) }
    ensures err { IfErr result (λ e. StopsFor (shown_keys (option_copied change.entry))
        (P.state pool.old) e (P.state pool.new)) }
{
    match change {
        Some(body) => {
            let in_extents = stood_in_extents(alloc, pool, root, body)?;
            Ok(Some(sized(body, in_extents)))
        }
        None => Ok(None),
    }
}

// Whether a body stood in extents: one of no bytes stood in none.
fn stood_in_extents<P: Pool>(
    alloc: Global,
    pool: &mut P,
    root: &Root,
    body: &BodyChange,
) -> Result<bool, FetchFault>
    requires some { 1 ≤ root.now.height }
    requires known { IsKnown (P.state pool.old) (root_name root.now) }
    requires keeps { (level : ℕ) → (P.state pool.old).keeps level ≡ true }
    requires shown { IsShown body.now }
    ensures device { LeavesDevice (P.device pool.old) (P.device pool.new) }
    ensures touches { Touches root.now (kind_of body.now) (P.state pool.old) (P.state pool.new) }
    ensures told { IfOk result (IsStanding (P.state pool.new) body.now) }
    ensures err { IfErr result (λ e. StopsFor (kind_of body.now) (P.state pool.old) e
        (P.state pool.new)) }
{
    if body.before == 0 {
        return Ok(false);
    }
    let key = shown_key(body);
    stands_in_extents(alloc, pool, root, key)
}

// The key that tells where a body stands: its last byte's before where it becomes longer, and else the first that
// changes.
fn shown_key(body: &BodyChange) -> Key
    ensures { rank result ≡ shown_at body.now }
{
    match body.kind_read() {
        Some(read) => read.from,
        None => body.first,
    }
}

// The body, with where it stood.
fn sized(body: &BodyChange, in_extents: bool) -> SizedBody
    ensures { result ≡ standing in_extents body.now }
{
    SizedBody::new(body.first, body.before, body.after, in_extents)
}
