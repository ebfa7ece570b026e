//! Blocks of two contents, sector by sector.

ghost use Rattle.std.specs.Prelude.{◌≡◌, ◌<◌, length};
ghost use Rattle.r4_base.specs.Image.{IsBlock};
ghost use Rattle.r4_outside.specs.Mix.{IsMix, CopiesSector};

use r4_base::Block;

// Copies one sector.
fn copy_sector(into: &mut [u8], from: &[u8], s: usize)
    requires s { s < 8 }
    requires into { length into.old ≡ 4096 }
    requires from { length from.now ≡ 4096 }
    ensures { CopiesSector s from.now into.old into.new }
{
    let start = 512 * s;
    into[start..start + 512].copy_from_slice(&from[start..start + 512]);
}

// Copies the sectors whose bits are set.
fn mix_bytes(into: &mut [u8], from: &[u8], mask: u8)
    requires into { length into.old ≡ 4096 }
    requires from { length from.now ≡ 4096 }
    ensures mix { IsMix mask from.now into.old into.new }
    ensures length { length into.new ≡ 4096 }
{
    for s in 0..8usize {
        if (mask >> s) & 1 == 1 {
            copy_sector(into, from, s);
        }
    }
}

/// Copies the sectors whose bits are set: bit 0 is sector 0.
#[tactic(auto, using(r4_base::proofs::Lent::refilled_is))]
pub fn mix(into: &mut Block, from: &Block, mask: u8)
    ensures mix { IsMix mask from.now into.old into.new }
    ensures whole { IsBlock into.new }
{
    mix_bytes(into.bytes_mut(), from.bytes(), mask);
}
