//! Which edits each of three leaves gets, where the edits lie across their borders.

ghost use Rattle.std.specs.Prelude.{◌≡◌};
ghost use Rattle.r4_content.specs.Held.{edits_of};
ghost use Rattle.r4_build_testing.specs.Commands.{mixed};

use r4_base::{Key, STAT, TAIL};
use r4_build_testing::{byte, mixed_edits};
use r4_cell::{least, top};
use r4_content::Edits;
use r4_leaf::{Given, KeyRange};
use r4_leaf_edits::{LeafEdits, edits_of_leaf, touches_leaf};
use std::alloc::Global;
use std::test::Fail;

// The offsets of the ranges that are cut out; of the root's stat data, 0 and 1.
fn ranges(alloc: Global, gets: &LeafEdits<'_>) -> Result<Vec<(u64, u64)>, Fail> {
    let mut ranges = Vec::new(alloc);
    for range in gets.cuts() {
        ranges.push((range.from.el[3], range.to.el[3]))?;
    }
    Ok(ranges)
}

// An item that comes: its plugin, its offset, how many bytes it has, and the first of them.
type Row = (u16, u64, usize, u8);

fn row(item: &Given<'_>) -> Row {
    match item {
        Given::Item { key, plugin, body } => (
            *plugin,
            key.el[3],
            body.len(),
            body.first().copied().unwrap_or(0),
        ),
        Given::Fill { key, count, byte } => (TAIL, key.el[3], *count as usize, *byte),
    }
}

fn rows(alloc: Global, gets: &LeafEdits<'_>) -> Result<Vec<Row>, Fail> {
    let items = gets.items(alloc)?;
    let mut rows = Vec::new(alloc);
    for item in &items {
        rows.push(row(item))?;
    }
    Ok(rows)
}

// Whether the leaf of these keys gets just these ranges and items.
fn gets(
    alloc: Global,
    edits: &Edits,
    lo: &Key,
    hi: &Key,
    cuts: &[(u64, u64)],
    items: &[Row],
) -> Result<bool, Fail>
    requires { edits_of edits.now ≡ mixed }
{
    let gets = edits_of_leaf(alloc, edits, None, lo, hi)?;
    let ranges = ranges(alloc, &gets)?;
    let rows = rows(alloc, &gets)?;
    Ok(ranges.as_slice() == cuts && rows.as_slice() == items)
}

// The borders of the leaves are byte 6, within the fill, and byte 12, within the run; a fourth one gets nothing.
#[test]
fn edits_are_parted_at_borders(rt: HostRuntime) -> Result<(), Fail> {
    let alloc = rt.alloc();
    let edits = mixed_edits(alloc)?;
    let wanted: [(Key, Key, &[(u64, u64)], &[Row]); 4] = [
        (
            least(),
            byte(6),
            &[(2, 6), (4, 6), (0, 1)],
            &[(TAIL, 4, 2, 7), (STAT, 0, 44, 3)],
        ),
        (
            byte(6),
            byte(12),
            &[(6, 12), (6, 8), (10, 12)],
            &[(TAIL, 6, 2, 7), (TAIL, 10, 2, b'h')],
        ),
        (
            byte(12),
            byte(20),
            &[(12, 20), (12, 15)],
            &[(TAIL, 12, 3, b'l')],
        ),
        (byte(20), top(), &[], &[]),
    ];
    for (lo, hi, cuts, items) in wanted {
        let is_share = gets(alloc, &edits, &lo, &hi, cuts, items)?;
        assert!(rt; is_share, "from {}", lo.el[3]);
        assert_eq!(rt; touches_leaf(&edits, &lo, &hi), !cuts.is_empty());
    }
    Ok(())
}
