//! Lists of names that several owners have.

ghost use Rattle.std.specs.Prelude.{◌≡◌, IfOk};

use r4_base::{Memory, Name};
use std::alloc::Global;
use std::marker::Model;
use std::sync::Arc;

/// Names behind an `Arc`, which contracts see as the list of their lists of bytes.
#[derive(Drop)]
pub struct Names {
    items: Arc<Vec<Name>>,
}

impl Model for Names {
    ghost use Rattle.std.specs.Prelude.{List, ℕ};
    ghost use Rattle.std.specs.Arc.{arc_value};

    ghost Value = { List (List ℕ) };

    ghost view = { λ n. (arc_value n.items).items };
}

impl Names {
    /// These names in this order, which are moved and not copied.
    pub fn from_vec(alloc: Global, items: Vec<Name>) -> Result<Names, Memory>
        ensures { IfOk result (λ n. n ≡ items.items) }
    {
        let items = Arc::new(alloc, items)?;
        Ok(Names { items })
    }

    /// The names, to be read.
    pub fn as_slice(&self) -> &[Name]
        ensures { result.now ≡ self.now }
    {
        self.items.as_slice()
    }

    /// A further owner of the same names. It takes no memory and copies none of them; `Memory` comes only where the count
    /// of owners is full, at 2^63 - 1.
    pub fn share(&self) -> Result<Names, Memory>
        ensures { IfOk result (λ n. n ≡ self.now) }
    {
        let items = Arc::try_clone(&self.items)?;
        Ok(Names { items })
    }
}
