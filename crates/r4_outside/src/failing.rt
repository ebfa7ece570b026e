//! Calls that are to fail, and the count of those that did.

ghost use Rattle.std.specs.Prelude.{IsTrue, Contains, ◌↔◌, ◌≡◌, ◌≤◌};
ghost use Rattle.r4_outside.specs.Device.{next};

use crate::Failed;

/// Counts one call more. Is it to fail?
pub fn counted(fails: &[u64], made: &mut u64) -> bool
    ensures count { made.new ≡ next made.old }
    ensures fails { IsTrue result ↔ Contains fails.now made.new }
{
    *made = made.saturating_add(1);
    fails.contains(made)
}

/// Counts one fault more.
pub fn missed(faults: &mut u64) -> Failed
    ensures next { faults.new ≡ next faults.old }
    ensures no_less { faults.old ≤ faults.new }
{
    *faults = faults.saturating_add(1);
    Failed
}
