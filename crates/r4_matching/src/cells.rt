//! How a cell differs from the one that was kept.

ghost use Rattle.std.specs.Prelude.{◌≡◌, ◌↔◌, IsTrue, MatchOption, length};
ghost use Rattle.r4_matching.specs.Matching.{IsDifference, IsFirstByte};

use r4_base::BLOCK_BYTES;
use r4_cell::{Cell, Key};

/// How a cell of a task differs from the one that was kept for it, the first of these: `had` is the
/// task's value, `has` the kept one (docs/core.md, "Matching").
#[derive(Clone, Copy, Debug, PartialEq, Eq)]
pub enum Differs {
    /// Only one of the two lists has the node.
    Missing,
    Level { had: u8, has: u8 },
    /// The least key that the cell may hold, and the one that all its keys are below.
    Range { had: (Key, Key), has: (Key, Key) },
    /// The first byte that differs, by its place from 0 on, which is below 4096.
    Byte { at: u16, had: u8, has: u8 },
}

// How the cell differs from the kept one of its name; none where they are equal.
pub(crate) fn difference(had: &Cell, has: &Cell) -> Option<Differs>
    requires { had.now.id ≡ has.now.id }
    ensures { MatchOption result (had.now ≡ has.now) (IsDifference had.now has.now) }
{
    if had.level() != has.level() {
        return Some(Differs::Level {
            had: had.level(),
            has: has.level(),
        });
    }
    let mine = (had.lo(), had.hi());
    let kept = (has.lo(), has.hi());
    if mine != kept {
        return Some(Differs::Range {
            had: mine,
            has: kept,
        });
    }
    let (at, had, has) = first_byte(had.block().bytes(), has.block().bytes())?;
    Some(Differs::Byte { at, had, has })
}

// The first byte at which two blocks differ, and what each has there.
fn first_byte(had: &[u8], has: &[u8]) -> Option<(u16, u8, u8)>
    requires had_len { length had.now ≡ 4096 }
    requires has_len { length has.now ≡ 4096 }
    ensures { MatchOption result (had.now ≡ has.now)
        (λ d. IsFirstByte had.now has.now d.0 d.1 d.2) }
{
    for at in 0..BLOCK_BYTES as u16 {
        let (mine, kept) = (had[at as usize], has[at as usize]);
        if mine != kept {
            return Some((at, mine, kept));
        }
    }
    None
}

// Whether the two cells are the same.
pub(crate) fn is_same(cell: &Cell, other: &Cell) -> bool
    ensures { IsTrue result ↔ (cell.now ≡ other.now) }
{
    cell.id() == other.id()
        && cell.level() == other.level()
        && cell.lo() == other.lo()
        && cell.hi() == other.hi()
        && cell.block().bytes() == other.block().bytes()
}
