//! A core on a volume, and what there is to do.

ghost use Rattle.std.specs.Prelude.{IfOk};
ghost use Rattle.r4_apply.specs.r4_next.Taking.{BuildsIfWork};

use crate::images::{Image, device};
use crate::pushing::job_of;
use r4_apply::{Core, OpenFault, Taken, take};
use r4_outside::{MemoryDevice, Unnamed};
use std::alloc::Global;
use std::test::Fail;

/// The core of a volume, which serves these scripts.
///
/// # Errors
/// Where there is no memory, the scripts are refused, or the volume is not opened.
pub fn opened(
    alloc: Global,
    image: Image,
    scripts: &str,
) -> Result<Core<MemoryDevice, Unnamed>, Fail> {
    opened_on(alloc, device(alloc, image)?, scripts)
}

/// The core of the volume of a device, which serves these scripts.
///
/// # Errors
/// As with `opened`.
pub fn opened_on(
    alloc: Global,
    dev: MemoryDevice,
    scripts: &str,
) -> Result<Core<MemoryDevice, Unnamed>, Fail> {
    let job = job_of(alloc, scripts)?;
    match Core::open(alloc, dev, job, 1000) {
        Ok(core) => Ok(core),
        Err(OpenFault { dev: _, why: _ }) => Err(Fail::from("the core is not opened")),
    }
}

/// What there is to do next.
///
/// # Errors
/// Where there is no memory, or transactions have had all numbers up to `u32::MAX`.
pub fn next(core: &mut Core<MemoryDevice, Unnamed>, alloc: Global) -> Result<Taken, Fail>
    ensures { IfOk result BuildsIfWork }
{
    if core.atoms().begun() == u32::MAX {
        return Err(Fail::from("there are too many transactions"));
    }
    Ok(take(core, alloc)?)
}
