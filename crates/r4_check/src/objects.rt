//! The faults of the objects that a walk has gathered (docs/check.md, "Objects").

ghost use Rattle.std.specs.Prelude.{ℕ, IfErr};
ghost use Rattle.r4_list.specs.Printing.{Prints};
ghost use Rattle.r4_check.specs.Looking.{IsObjectsCause, Steps, Tells};
ghost use Rattle.r4_check.specs.Walk.{judged, with_faults};

use crate::look::tell_wrong;
use crate::settled::Settled;
use crate::stop::Stop;
use crate::tally::Tally;
use r4_check_objects::{Fault, object_faults};
use r4_outside::Sink;
use std::alloc::Global;

/// Tells the faults of objects, where the tree is whole.
pub fn tell_objects<K: Sink>(
    alloc: Global,
    out: &mut K,
    settled: &Settled,
    tally: &mut Tally,
) -> Result<(), Stop>
    ensures prints { Prints (K.state out.old) (K.state out.new) }
    ensures cause { IfErr result (λ e. IsObjectsCause (K.state out.old) e (K.state out.new)) }
    ensures steps { (blocks : ℕ) → Steps blocks (K.state out.old) tally.old
        result (K.state out.new) tally.new (judged settled.now.found.super40) }
{
    if !tally.whole {
        return Ok(());
    }
    let super40 = &settled.found.super40;
    let leaf = tally.gathered.leaf.unwrap_or(super40.root_block);
    let faults = object_faults(alloc, super40, leaf, &tally.gathered.found)?;
    tell_all(out, tally, &faults)
}

// Tells faults.
fn tell_all<K: Sink>(out: &mut K, tally: &mut Tally, faults: &[Fault]) -> Result<(), Stop>
    ensures tells { Tells (K.state out.old) tally.old result (K.state out.new) tally.new }
    ensures steps { (blocks : ℕ) → Steps blocks (K.state out.old) tally.old
        result (K.state out.new) tally.new (with_faults faults.now) }
{
    for fault in faults {
        tell_wrong(out, tally, fault.block.0, Some(fault.what))?;
    }
    Ok(())
}
