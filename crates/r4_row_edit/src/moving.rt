//! Items that move from one list to another.

ghost use Rattle.std.specs.Prelude.{◌≡◌, ◌++◌, drop, take, OnOk};
ghost use Rattle.std.specs.Vec.Iter.{into_iter_items};

use r4_base::Memory;
use r4_squeeze::NodeItem;
use std::vec::IntoIter;

/// So many items, or as many as there are, come behind the others.
pub fn move_some<'a>(
    from: &mut IntoIter<NodeItem<'a>>,
    count: usize,
    to: &mut Vec<NodeItem<'a>>,
) -> Result<(), Memory>
    ensures moved { OnOk result (to.new.items
        ≡ to.old.items ++ take count (into_iter_items from.old)) }
    ensures left { OnOk result (into_iter_items from.new ≡ drop count (into_iter_items from.old)) }
{
    if count == 0 {
        return Ok(());
    }
    match from.next() {
        None => Ok(()),
        Some(item) => {
            to.push(item)?;
            move_some(from, count - 1, to)
        }
    }
}

/// All items come behind the others.
pub fn move_all<'a>(from: IntoIter<NodeItem<'a>>, to: &mut Vec<NodeItem<'a>>) -> Result<(), Memory>
    ensures { OnOk result (to.new.items ≡ to.old.items ++ into_iter_items from.entry) }
{
    for item in from {
        to.push(item)?;
    }
    Ok(())
}
