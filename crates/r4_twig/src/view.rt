//! An extent, read where it stands (docs/layout.md, "Items").

ghost use Rattle.std.specs.Prelude.{◌≡◌, ◌*◌, ◌%◌, ◌<◌, ◌≤◌, ◌^◌, length, slice_get, true, None, Some, IfOk, IfErr};
ghost use Rattle.r4_base.specs.Extents.{body_fault, extent_fault, memory_fault, units_of};

use crate::fault::fault_of;
use crate::units::{UNIT, unit_in};
use r4_base::{ExtentFault, Unit};

/// An extent whose units are read from the body that it lends, when they are asked for. It has at least one unit
/// (docs/layout.md, "Items").
#[derive(Drop)]
pub struct ExtentView<'a> {
    body: &'a [u8],
    ghost some: { 16 ≤ length body.now },
    ghost whole: { length body.now % 16 ≡ 0 },
    ghost countable: { length body.now < 16 * 65536 },
}

impl<'a> ExtentView<'a> {
    ghost use Rattle.r4_twig.specs.View.{view_body, view_units};

    /// Reads a body as an extent of a volume of `blocks` blocks. A body has fewer than 65536 units, so that 16 bits count
    /// them and name each. The faults are looked for in this order: `Length`, where the body is empty or its length no
    /// multiple of 16; then for each unit, by its place from 0 on, `Start`, where the start is 1 to 21; `Width`, where the
    /// width is 0; `Range`, where a run goes past the block count or holds a fixed block (docs/layout.md, "Items").
    pub fn read(body: &'a [u8], blocks: u64) -> Result<ExtentView<'a>, ExtentFault>
        requires { length body.now < 16 * 65536 }
        ensures ok { IfOk result (λ v. extent_fault blocks body.now ≡ None) }
        ensures lent { IfOk result (λ v. view_body v ≡ body.entry) }
        ensures units { IfOk result (λ v. view_units v ≡ units_of body.now) }
        ensures some { IfOk result (λ v. 0 < length (view_units v)) }
        ensures err { IfErr result (λ e. extent_fault blocks body.now ≡ Some e) }
    {
        match fault_of(body, blocks, false) {
            Some(fault) => Err(fault),
            None => Ok(ExtentView { body }),
        }
    }

    /// Reads a body as an extent in memory: as `read`, but a unit with a start of at least 2^63 and a width of 1, a block
    /// that is not placed yet, is accepted too (docs/layout.md, "Items").
    pub fn in_memory(body: &'a [u8], blocks: u64) -> Result<ExtentView<'a>, ExtentFault>
        requires { length body.now < 16 * 65536 }
        ensures ok { IfOk result (λ v. memory_fault blocks body.now ≡ None) }
        ensures lent { IfOk result (λ v. view_body v ≡ body.entry) }
        ensures units { IfOk result (λ v. view_units v ≡ units_of body.now) }
        ensures some { IfOk result (λ v. 0 < length (view_units v)) }
        ensures err { IfErr result (λ e. memory_fault blocks body.now ≡ Some e) }
    {
        match fault_of(body, blocks, true) {
            Some(fault) => Err(fault),
            None => Ok(ExtentView { body }),
        }
    }

    /// The extent that a body spells which is known to have no fault in memory on a volume of 2^64 blocks, as one that was
    /// read before on a volume of any size: nothing is looked at again. It has fewer than 65536 units.
    pub fn of_item(body: &'a [u8]) -> ExtentView<'a>
        requires few { length body.now < 16 * 65536 }
        requires good { body_fault true (2 ^ 64) body.now ≡ None }
        ensures lent { view_body result ≡ body.entry }
        ensures units { view_units result ≡ units_of body.now }
    {
        ExtentView { body }
    }

    /// How many units the extent has, each of 16 bytes: one at least (docs/layout.md, "Items").
    pub fn len(&self) -> u16
        ensures units { result ≡ length (view_units self.now) }
        ensures bytes { 16 * result ≡ length (view_body self.now).now }
        ensures some { 1 ≤ result }
    {
        (self.body.len() / UNIT) as u16
    }

    /// The unit at place `i`, counted from 0 (docs/layout.md, "Items").
    pub fn unit(&self, i: u16) -> Unit
        requires { i < length (view_units self.now) }
        ensures { slice_get (view_units self.now) i ≡ Some result }
    {
        unit_in(self.body, usize::from(i))
    }
}
