//! What becomes of an atom's account, of its cells, and of the space as a command is done
//! (docs/core.md, "Little steps").
#![tactic(auto)]

mod counting;
mod freeing;
mod levels;
mod owning;
mod putting;

pub use counting::account_after;
pub use freeing::tell_space;
pub use levels::levels_law;
pub use owning::take_over;
pub use putting::{afford, put_change};
