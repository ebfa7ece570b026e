//! Where a run began, as contracts name it.

use r4_outside::Named;

/// A value that says in contracts what a device told of itself as a run began. At run time it is nothing.
pub trait Origin: Copy + Send {
    ghost use Rattle.r4_outside.specs.Device.{State};

    /// What the device told.
    ghost began: { State };
}

impl Origin for Named {
    ghost use Rattle.r4_origin.specs.Untold.{untold};

    ghost began = { untold };
}
