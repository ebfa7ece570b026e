//! Laws of the order in which a commit is written (docs/durable.md, "Wrong bodies"). Each is the
//! contract of a function that does nothing.

ghost use Rattle.std.specs.Prelude.{◌≡◌, ◌≢◌, ℕ, [], None, Contains};
ghost use Rattle.r4_base.specs.Image.{Image, block_at};
ghost use Rattle.r4_base.specs.Log.{head_of};
ghost use Rattle.r4_base.specs.Value.{Content};
ghost use Rattle.r4_base.specs.Volume.{HasVolume};
ghost use Rattle.r4_wander.specs.Safe.{IsEncoded, IsSafe, WithAtom, WithoutAtom};
ghost use Rattle.r4_wander.specs.Seen.{Copy};
ghost use Rattle.r4_wander.specs.declared.plan.LogPlan.{LogPlan};
ghost use Rattle.r4_durable_rows.specs.Orders.{IsAtomic, IsLeft, header_early, homes_early};
ghost use Rattle.r4_durable_rows.specs.Orders.{in_order};

/// Where each of the four parts is synced before the next one is written, a crash leaves the old
/// image or the new one.
pub fn orders_are_atomic()
    ensures in_order { IsAtomic in_order }
{}

/// Where the journal header is written before the log is synced, a crash may leave a header that
/// names no head: an image that has no volume at all, wherever the head's block spelled no head
/// before (`no_volume`). So it is neither the old image nor the new one (`not_atomic`).
pub fn headers_are_written_behind_logs()
    ensures no_volume { (n : ℕ) (base : Image) (p : LogPlan) → IsSafe n base [] p → IsEncoded p
        → head_of (block_at base p.head.0) ≡ None
        → (image : Image) × IsLeft (header_early p) base image
        × ((m : Content) → HasVolume n image m → ⊥) }
    ensures not_atomic { IsAtomic header_early → ⊥ }
{}

/// Where the homes are written before the journal header is synced, a crash may leave one home
/// overwritten, and no header: neither the old image nor the new one, wherever two homes change
/// something (`neither`).
pub fn homes_are_written_behind_headers()
    ensures neither { (n : ℕ) (base : Image) (p : LogPlan) (v w : Copy) → IsSafe n base [] p
        → IsEncoded p → Contains p.wandered v → Contains p.wandered w → v.original ≢ w.original
        → v.block ≢ block_at base v.original → w.block ≢ block_at base w.original
        → (image : Image) × IsLeft (homes_early p) base image
        × (WithoutAtom n base [] p image → ⊥) × (WithAtom n base [] p image → ⊥) }
    ensures not_atomic { IsAtomic homes_early → ⊥ }
{}
