//! The bytes of a twig's pieces (docs/layout.md, "Items").

ghost use Rattle.std.specs.Prelude.{◌≡◌, ℕ, ◌+◌, ◌*◌, ◌^◌, ◌<◌, ◌≤◌, [], ◌∷◌, length, true, nat_lt, None, Some, if◌then◌else◌, option_map};
ghost use Rattle.r4_base.specs.Extents.{blocks_in, body_fault, pointer_of, units_of};
ghost use Rattle.r4_base.specs.Key.{offset_of, rank};
ghost use Rattle.r4_branch.specs.Items.{IsSoundItem};

use crate::reading::behind;
use r4_base::{BLOCK_BYTES, BlockNo, Key, NodeId, Unit};
use r4_twig::{ExtentView, put_pointer, replace};

/// The body of a pointer to a node.
pub(crate) fn spell_pointer(to: NodeId) -> [u8; 8]
    requires { 22 ≤ to.0 }
    ensures long { length result ≡ 8 }
    ensures pointer { pointer_of result ≡ Some to.0 }
{
    let mut body = [0; 8];
    put_pointer(&mut body, BlockNo(to.0));
    body
}

/// The body of an extent of one unit.
pub(crate) fn spell_unit(unit: &Unit) -> [u8; 16]
    ensures long { length result ≡ 16 }
    ensures units { units_of result ≡ unit.now ∷ [] }
{
    let mut body = [0; 16];
    replace(&mut body, 0, unit);
    body
}

/// The key behind an extent, if it has one: none goes on behind offset 2^64.
pub(crate) fn key_behind(key: &Key, body: &[u8]) -> Option<Key>
    requires { IsSoundItem (record { key = key.now; plugin = 5; body = body.now }) }
    ensures { option_map rank result ≡ (if nat_lt (offset_of key.now + 4096 * blocks_in (units_of body.now)) (2 ^ 64) then Some (rank key.now + 4096 * blocks_in (units_of body.now)) else None) }
{
    let blocks = blocks_of(body);
    let bytes = blocks.checked_mul(BLOCK_BYTES)?;
    key.el[3].checked_add(bytes)?;
    Some(behind(key, blocks))
}

/// How many blocks an extent has, with those of its holes.
fn blocks_of(body: &[u8]) -> u64
    requires few { length body.now < 16 * 65536 }
    requires good { body_fault true (2 ^ 64) body.now ≡ None }
    requires fits { 4096 * blocks_in (units_of body.now) ≤ 2 ^ 64 }
    ensures { result ≡ blocks_in (units_of body.now) }
{
    let extent = ExtentView::of_item(body);
    let mut blocks = 0;
    for i in 0..extent.len() {
        blocks += extent.unit(i).width;
    }
    blocks
}
