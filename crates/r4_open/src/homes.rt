//! Where the blocks of an image stand.

ghost use Rattle.std.specs.Prelude.{◌≡◌, ℕ};

use r4_base::BlockNo;
use r4_replay::Log;

/// Where the content of each block of an image stands on its device.
pub trait Homes {
    /// The block where the content of a block stands.
    ghost home: { Self → ℕ → ℕ };

    /// The same, for one block.
    fn home_of(&self, at: BlockNo) -> BlockNo
        ensures { result.0 ≡ home self.now at.0 };
}

/// Each block stands in its place.
pub struct InPlace;

impl Homes for InPlace {
    ghost home = { λ _ b. b };

    fn home_of(&self, at: BlockNo) -> BlockNo {
        at
    }
}

impl Homes for Log {
    ghost use Rattle.r4_replay.specs.Homes.{home_in};

    ghost home = { λ log. home_in log.homes };

    fn home_of(&self, at: BlockNo) -> BlockNo {
        self.home(at)
    }
}
