//! The numbers of the objects that a command has seen.

ghost use Rattle.std.specs.Prelude.{◌≡◌, ◌∷◌, [], MatchBool};
ghost use Rattle.std.specs.List.{flat_map};
ghost use Rattle.r4_base.specs.Key.{rank};
ghost use Rattle.r4_base.specs.Value.{Stat};
ghost use Rattle.r4_base.specs.declared.items.Attr.{Attr as AttrSeen};
ghost use Rattle.r4_content.specs.Held.{part_pairs};
ghost use Rattle.r4_extent_reaching.specs.r4_reaching.Answers.{HaveObjectNumbers, SeesLowObject};

use r4_base::{Key, ROOT_OBJECT, Value};
use r4_content::SeenPart;

/// Whether attributes were seen of an object with a number below 42, that of the root directory,
/// which no object of a volume has: a directory of such a number would have entries at keys that no
/// tree has.
pub(crate) fn sees_low_object(seen: &[SeenPart]) -> bool
    ensures { MatchBool result (SeesLowObject (flat_map part_pairs seen.now))
        (HaveObjectNumbers (flat_map part_pairs seen.now)) }
{
    for part in seen {
        if is_low_object(part) {
            return true;
        }
    }
    false
}

// Whether it is so of one part.
fn is_low_object(part: &SeenPart) -> bool
    ensures { MatchBool result (SeesLowObject (part_pairs part.now))
        (HaveObjectNumbers (part_pairs part.now)) }
{
    match part {
        SeenPart::One { key, value } => match value {
            Value::Attr(attr) => is_low_number(key, attr.size),
            _ => false,
        },
        SeenPart::Run(_) => false,
    }
}

// Whether the number of an object is below 42, by the key of its stat data. Its size is one of 64
// bits in any case.
fn is_low_number(key: &Key, size: u64) -> bool
    ensures { (a : AttrSeen) → a.size ≡ size
        → MatchBool result (SeesLowObject ((rank key.now, Stat a) ∷ []))
        (HaveObjectNumbers ((rank key.now, Stat a) ∷ [])) }
{
    let _ = size;
    key.el[2] < ROOT_OBJECT.oid.0
}
