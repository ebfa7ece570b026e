//! The sums of each part.

ghost use Rattle.std.specs.Prelude.{◌++◌, ◌∷◌, [], List, IfOk, OnOk};
ghost use Rattle.r4_check_objects.specs.Known.{AreTotals, AreTotalsOf, IsKnown};
ghost use Rattle.r4_check_objects.specs.declared.held.Held.{Held as Found};

use crate::held::Held;
use crate::known::Known;
use crate::sums::{Part, Sums, add_share};
use crate::table::{Span, Table};
use r4_base::Memory;
use std::alloc::Global;

/// The sums of each part.
#[derive(Drop)]
pub(crate) struct Totals {
    pub(crate) entries: Sums,
    pub(crate) directories: Sums,
    pub(crate) links: Sums,
    pub(crate) reached: Sums,
    pub(crate) tails: Sums,
    pub(crate) blocks: Sums,
    pub(crate) past: Sums,
    pub(crate) strays: Sums,
}

/// The sums over these things, with a span of ids in the tables' lists. They stand still at
/// 2^64 - 1.
pub(crate) fn totals_of(
    alloc: Global,
    known: &Known,
    found: &[Held],
    span: Span,
) -> Result<Totals, Memory>
    requires { IsKnown found.now known.now }
    ensures { IfOk result (AreTotals found.now) }
{
    let mut totals = Totals::new(alloc, span)?;
    for held in found {
        totals.add(known, held)?;
    }
    Ok(totals)
}

impl Totals {
    // Nothing is added up.
    fn new(alloc: Global, span: Span) -> Result<Totals, Memory>
        ensures { IfOk result (λ t. (found : List Found) → AreTotalsOf found [] t) }
    {
        Ok(Totals {
            entries: Table::new(alloc, 0, span)?,
            directories: Table::new(alloc, 0, span)?,
            links: Table::new(alloc, 0, span)?,
            reached: Table::new(alloc, 0, span)?,
            tails: Table::new(alloc, 0, span)?,
            blocks: Table::new(alloc, 0, span)?,
            past: Table::new(alloc, 0, span)?,
            strays: Table::new(alloc, 0, span)?,
        })
    }

    // Adds what one thing more counts.
    fn add(&mut self, known: &Known, held: &Held) -> Result<(), Memory>
        ensures { (found before : List Found) → IsKnown found known.now
            → AreTotalsOf found before self.old
            → OnOk result (AreTotalsOf found (before ++ held.now ∷ []) self.new) }
    {
        add_share(&mut self.entries, Part::Entries, known, held)?;
        add_share(&mut self.directories, Part::Directories, known, held)?;
        add_share(&mut self.links, Part::Links, known, held)?;
        add_share(&mut self.reached, Part::Reached, known, held)?;
        add_share(&mut self.tails, Part::Tails, known, held)?;
        add_share(&mut self.blocks, Part::Blocks, known, held)?;
        add_share(&mut self.past, Part::Past, known, held)?;
        add_share(&mut self.strays, Part::Strays, known, held)?;
        Ok(())
    }
}
