//! Tables of what may still come (docs/volume.md, "What may still come").

ghost use Rattle.std.specs.Prelude.{◌≡◌, ◌==◌, ◌&&◌};
ghost use Rattle.r4_allowed.specs.Table.{budget_of};

use r4_base::NodeId;

/// How many cells may still come in the place of the cell of this level and number (docs/volume.md,
/// "What may still come").
#[derive(Clone, Copy, Debug, PartialEq, Eq)]
pub struct Allowance {
    pub level: u8,
    pub id: NodeId,
    pub most: u64,
}

// What a table has for a level and a number: the first entry's, else nothing.
pub(crate) fn most_of(table: &[Allowance], level: u8, id: NodeId) -> u64
    ensures { result ≡ budget_of table.now level id.0 }
{
    match table.split_first() {
        None => 0,
        Some((first, rest)) => {
            if is_for(first, level, id) {
                first.most
            } else {
                most_of(rest, level, id)
            }
        }
    }
}

// Whether an entry is for a level and a number.
fn is_for(entry: &Allowance, level: u8, id: NodeId) -> bool
    ensures { result ≡ ((entry.now.level == level) && (entry.now.id.0 == id.0)) }
{
    entry.level == level && entry.id.0 == id.0
}
