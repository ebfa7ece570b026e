//! A node pointer (docs/layout.md, "Items").

ghost use Rattle.std.specs.Prelude.{◌≡◌, ◌≤◌, length, Some, IfSome, option_map};
ghost use Rattle.r4_base.specs.Bytes.{number_bytes};
ghost use Rattle.r4_base.specs.Extents.{pointer_of};

use r4_base::{BlockNo, FIRST_PLACE, get64, put64};

/// The block that a pointer names, and `None` exactly where the body has not 8 bytes or names one of blocks 0 to 21
/// (docs/layout.md, "Items").
#[tactic(auto, unfolding(r4_base::specs::Extents::pointer_of))]
pub fn pointer(body: &[u8]) -> Option<BlockNo>
    ensures value { option_map (λ to. to.0) result ≡ pointer_of body.now }
    ensures high { IfSome result (λ to. 22 ≤ to.0) }
{
    if body.len() != 8 {
        return None;
    }
    let to = get64(body, 0);
    (to >= FIRST_PLACE).then_some(BlockNo(to))
}

/// Makes a body of 8 bytes a pointer to a block (docs/layout.md, "Items").
pub fn put_pointer(body: &mut [u8], to: BlockNo)
    requires { length body.old ≡ 8 }
    ensures spelled { body.new ≡ number_bytes 8 to.0 }
    ensures again { 22 ≤ to.0 → pointer_of body.new ≡ Some to.0 }
{
    put64(body, 0, to.0);
}
