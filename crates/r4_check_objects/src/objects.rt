//! The faults of objects, in order.

ghost use Rattle.std.specs.Prelude.{◌≡◌, ◌++◌, IfOk, OnOk};
ghost use Rattle.r4_check_objects.specs.Known.{IsJudge};
ghost use Rattle.r4_check_objects.specs.Objects.{count_faults, faults_under, object_faults, stats_of};
ghost use Rattle.std.specs.List.{flat_map};

use crate::fault::{Fault, What};
use crate::heads::firsts_of;
use crate::held::Held;
use crate::judging::Judge;
use crate::known::Known;
use crate::table::Span;
use crate::totals::totals_of;
use r4_base::{FIRST_OBJECT, Memory, SUPER_BLOCK, Super40};
use std::alloc::Global;
use std::collections::BTreeSet;

/// The faults of the objects that a tree holds, `found` from the left, whose leftmost leaf is this block: by rising object
/// id, at most once each in the order `Size`, `Links`, `Lost`, `Id`, and last `Files` (docs/check.md, "Objects"). It needs
/// some hundred bytes for each id.
pub fn object_faults(
    alloc: Global,
    super40: &Super40,
    leaf: u64,
    found: &[Held],
) -> Result<Vec<Fault>, Memory>
    ensures { IfOk result (λ v. v.items ≡ object_faults super40.now leaf found.now) }
{
    let span = span_of(found);
    let firsts = firsts_of(alloc, found, span)?;
    let known = Known::of(alloc, firsts.heads, found, span)?;
    let totals = totals_of(alloc, &known, found, span)?;
    let _few = found.len();
    let judge = Judge {
        super40: *super40,
        leaf,
        known,
        totals,
    };
    let mut faults = Vec::new(alloc);
    add_under(&judge, found, firsts.ids, &mut faults)?;
    add_count(&mut faults, super40, found)?;
    Ok(faults)
}

// Adds the faults of ids.
fn add_under(
    judge: &Judge,
    found: &[Held],
    mut ids: BTreeSet<u64>,
    faults: &mut Vec<Fault>,
) -> Result<(), Memory>
    requires { IsJudge found.now judge.now }
    ensures { OnOk result (faults.new.items ≡ faults.old.items
        ++ flat_map (faults_under judge.now.super40 judge.now.leaf found.now) ids.keys) }
{
    while let Some(id) = ids.pop_first() {
        judge.add_faults(faults, id)?;
    }
    Ok(())
}

// Adds the fault of the superblock, where it counts other than the objects.
fn add_count(faults: &mut Vec<Fault>, super40: &Super40, found: &[Held]) -> Result<(), Memory>
    ensures { OnOk result (faults.new.items
        ≡ faults.old.items ++ count_faults super40.now found.now) }
{
    if super40.file_count != stats_of(found) {
        let block = SUPER_BLOCK;
        let what = What::Files;
        faults.push(Fault { block, what })?;
    }
    Ok(())
}

// From the least id that stat data have up to the greatest, and at most two for each of them. Ids
// below the first one that a file may have are left out.
fn span_of(found: &[Held]) -> Span {
    let mut first = u64::MAX;
    let mut last = 0;
    let mut stats: usize = 0;
    for held in found {
        if held.is_stat_data() && held.id() >= FIRST_OBJECT {
            first = first.min(held.id());
            last = last.max(held.id());
            stats = stats.saturating_add(2);
        }
    }
    let count = last.saturating_sub(first).saturating_add(1);
    Span {
        first,
        count: stats.min(count as usize),
    }
}

// How many stat data there are.
fn stats_of(found: &[Held]) -> u64
    ensures { result ≡ stats_of found.now }
{
    found.iter().filter(|held| held.is_stat_data()).count() as u64
}
