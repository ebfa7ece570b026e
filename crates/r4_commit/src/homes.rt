//! What a commit overwrites: the superblock, the bitmaps, and the cells that keep their blocks.

ghost use Rattle.std.specs.Prelude.{◌≡◌, ◌++◌, ◌∷◌, [], ◌+◌, ◌/◌, ◌<◌, ◌≤◌, ℕ, length, map, IfOk, OnOk};
ghost use Rattle.std.specs.Arc.{arc_value};
ghost use Rattle.std.specs.Ordering.{nat_cmp};
ghost use Rattle.std.specs.BTreeMap.{get};
ghost use Rattle.r4_base.specs.Bitmap.{bitmap_block, bitmap_count};
ghost use Rattle.r4_base.specs.Layout.{super_block, super_fields};
ghost use Rattle.r4_commit.specs.Places.{overwritten};
ghost use Rattle.r4_commit.specs.Planned.{AreNewBitmaps, bitmap_writes, new_homes, new_super};

use crate::places::{Places, place_of};
use r4_base::{AtomNo, Block, BlockNo, Memory, SUPER_BLOCK, Super40, bitmap_block, bitmap_count};
use r4_layout::write_super;
use r4_place::Cell;
use r4_space::{SpaceMap, count_all_free};
use r4_wander::HomeBlock;
use std::alloc::Global;
use std::marker::Model;
use std::sync::Arc;

/// A block that is overwritten, and its new content.
#[derive(Drop)]
pub(crate) struct Home {
    pub(crate) original: BlockNo,
    pub(crate) block: HomeBlock,
}

impl Model for Home {
    ghost use Rattle.r4_wander.specs.Entries.{block_of};
    ghost use Rattle.r4_wander.specs.Torn.{Write};

    ghost Value = { Write };

    ghost view = { λ h. (h.original.0, block_of h.block) };
}

/// All bitmaps of the volume as the atom's commit leaves them.
pub(crate) fn make_bitmaps(
    alloc: Global,
    atom: AtomNo,
    blocks: u64,
    space: &SpaceMap,
) -> Result<Vec<Block>, Memory>
    requires { blocks ≡ space.now.block_count }
    ensures { IfOk result (λ v. AreNewBitmaps space.now atom v.items) }
{
    let count = bitmap_count(blocks);
    let mut bitmaps = Vec::new(alloc);
    for n in 0..count {
        let mut bitmap = Block::zeroed(alloc)?;
        space.bitmap(n, atom, &mut bitmap);
        bitmaps.push(bitmap)?;
    }
    Ok(bitmaps)
}

/// The superblock that the commit writes.
pub(crate) fn renew_super(next: &Super40, bitmaps: &[Block]) -> Super40
    requires { length bitmaps.now ≤ 64 }
    ensures { result ≡ new_super next.now bitmaps.now }
{
    Super40 {
        free_blocks: count_all_free(bitmaps),
        flushes: next.flushes.wrapping_add(1),
        ..*next
    }
}

/// The superblock at its block.
#[tactic(auto, using(r4_base::proofs::Lent::refilled_is))]
fn super_home(alloc: Global, super40: &Super40) -> Result<Home, Memory>
    ensures home { IfOk result (λ h. h ≡ (17, super_block super40.now)) }
    ensures reads { OnOk result (super_fields (super_block super40.now) ≡ super40.now) }
{
    let mut block = Block::zeroed(alloc)?;
    write_super(block.bytes_mut(), super40);
    Ok(Home {
        original: SUPER_BLOCK,
        block: HomeBlock::Made(block),
    })
}

/// Puts the bitmaps, each at its block, behind these.
fn add_bitmaps(homes: &mut Vec<Home>, bitmaps: Vec<Block>) -> Result<(), Memory>
    requires { length bitmaps.items ≤ 64 }
    ensures { OnOk result (homes.new.items ≡ homes.old.items ++ bitmap_writes 0 bitmaps.items) }
{
    let mut n = 0;
    for block in bitmaps {
        homes.push(Home {
            original: bitmap_block(n),
            block: HomeBlock::Made(block),
        })?;
        n += 1;
    }
    Ok(())
}

/// Puts the cells that keep their blocks, each at its block, behind these. Their blocks are shared, and not copied.
fn add_cells(homes: &mut Vec<Home>, cells: &[Arc<Cell>], places: &Places) -> Result<(), Memory>
    ensures { OnOk result (homes.new.items ≡ homes.old.items ++ map (λ c. (c.id, c.block)) (overwritten (get nat_cmp places.now) (map (λ cell. arc_value cell) cells.now))) }
{
    for cell in cells {
        if place_of(places, cell).is_none() {
            let block = HomeBlock::OfCell(Arc::try_clone(cell)?);
            homes.push(Home {
                original: BlockNo(cell.id().0),
                block,
            })?;
        }
    }
    Ok(())
}

/// All that the commit overwrites, with its new content.
pub(crate) fn make_homes(
    alloc: Global,
    super40: &Super40,
    bitmaps: Vec<Block>,
    cells: &[Arc<Cell>],
    places: &Places,
) -> Result<Vec<Home>, Memory>
    requires { length bitmaps.items ≤ 64 }
    ensures homes { IfOk result (λ v. v.items ≡ new_homes super40.now bitmaps.items (overwritten (get nat_cmp places.now) (map (λ cell. arc_value cell) cells.now))) }
    ensures reads { OnOk result (super_fields (super_block super40.now) ≡ super40.now) }
{
    let mut homes = Vec::new(alloc);
    homes.push(super_home(alloc, super40)?)?;
    add_bitmaps(&mut homes, bitmaps)?;
    add_cells(&mut homes, cells, places)?;
    Ok(homes)
}
