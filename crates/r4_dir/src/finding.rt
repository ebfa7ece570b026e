//! What was seen at a key (docs/commands.md, "Reading").

ghost use Rattle.std.specs.Prelude.{◌≡◌, ◌∷◌, [], option_map, None, Some, IfNone, IfSome};
ghost use Rattle.std.specs.FinMap.{find};
ghost use Rattle.std.specs.List.{flat_map};
ghost use Rattle.std.specs.Ordering.{nat_cmp};
ghost use Rattle.r4_base.specs.Key.{rank};
ghost use Rattle.r4_base.specs.Value.{value_of};
ghost use Rattle.r4_content.specs.Held.{pairs_of, part_pairs};
ghost use Rattle.r4_content.specs.Seen.{Rises};
ghost use Rattle.r4_content.specs.Walk.{attr_in};
ghost use Rattle.r4_content.specs.Ways.{entry_in};
ghost use Rattle.r4_dir.specs.Finding.{first_in, named_of, one_at};

use r4_base::{Attr, Key, Name, Target, Value};
use r4_content::{Seen, SeenPart};

/// An entry that was seen.
#[derive(Clone, Copy)]
pub struct SeenEntry<'a> {
    pub name: &'a Name,
    pub target: Target,
}

// The first key of a part; a run of no bytes has none.
fn first_key(part: &SeenPart) -> Option<Key>
    ensures { option_map rank result ≡ first_in part.now }
{
    match part {
        SeenPart::One { key, value: _ } => Some(*key),
        SeenPart::Run(run) => (!run.bytes.as_slice().is_empty()).then_some(run.from),
    }
}

// What a part has at a key, where it is no byte of a run.
fn value_in<'a>(part: &'a SeenPart, key: Key) -> Option<&'a Value>
    ensures some { IfSome result (λ v. one_at (part.now ∷ []) (rank key) ≡ Some (value_of v.now)) }
    ensures none { IfNone result (one_at (part.now ∷ []) (rank key) ≡ None) }
{
    match part {
        SeenPart::One { key: at, value } => at.is_same(key).then_some(value),
        SeenPart::Run(_) => None,
    }
}

// The same of parts, one after another.
fn value_among<'a>(parts: &'a [SeenPart], key: Key) -> Option<&'a Value>
    ensures some { IfSome result (λ v. one_at parts.now (rank key) ≡ Some (value_of v.now)) }
    ensures none { IfNone result (one_at parts.now (rank key) ≡ None) }
{
    for part in parts {
        if let Some(value) = value_in(part, key) {
            return Some(value);
        }
    }
    None
}

// The same of parts that rise: each step leaves half of them. A run of no bytes, which has no place
// among the others, ends that.
fn value_rising<'a>(parts: &'a [SeenPart], key: Key) -> Option<&'a Value>
    requires { Rises (flat_map part_pairs parts.now) }
    ensures some { IfSome result (λ v. one_at parts.now (rank key) ≡ Some (value_of v.now)) }
    ensures none { IfNone result (one_at parts.now (rank key) ≡ None) }
{
    if parts.is_empty() {
        return None;
    }
    let half = parts.len() / 2;
    let part = &parts[half];
    let Some(first) = first_key(part) else {
        return value_among(parts, key);
    };
    if first.is_same(key) {
        return value_in(part, key);
    }
    if key.is_below(first) {
        value_rising(&parts[..half], key)
    } else {
        value_rising(&parts[half + 1..], key)
    }
}

// What was seen at one key, where it is no byte of a run.
fn value_at<'a>(seen: &'a Seen, key: Key) -> Option<&'a Value>
    requires { Rises (pairs_of seen.now) }
    ensures some { IfSome result (λ v. one_at seen.now.parts.items (rank key)
        ≡ Some (value_of v.now)) }
    ensures none { IfNone result (one_at seen.now.parts.items (rank key) ≡ None) }
{
    value_rising(seen.parts.as_slice(), key)
}

/// The attributes that were seen at a key.
pub fn attr_at(seen: &Seen, key: Key) -> Option<Attr>
    requires { Rises (pairs_of seen.now) }
    ensures { result ≡ attr_in (find nat_cmp (rank key) (pairs_of seen.now)) }
{
    attr_of(value_at(seen, key)?)
}

// The attributes that a value is.
fn attr_of(value: &Value) -> Option<Attr>
    ensures { result ≡ attr_in (Some (value_of value.now)) }
{
    match value {
        Value::Attr(attr) => Some(*attr),
        _ => None,
    }
}

/// The entry that was seen at a key.
pub fn entry_at<'a>(seen: &'a Seen, key: Key) -> Option<SeenEntry<'a>>
    requires { Rises (pairs_of seen.now) }
    ensures { option_map named_of result ≡ entry_in (find nat_cmp (rank key) (pairs_of seen.now)) }
{
    entry_of(value_at(seen, key)?)
}

// The entry that a value is.
fn entry_of(value: &Value) -> Option<SeenEntry<'_>>
    ensures { option_map named_of result ≡ entry_in (Some (value_of value.now)) }
{
    match value {
        Value::Entry(name, target) => Some(SeenEntry {
            name,
            target: *target,
        }),
        _ => None,
    }
}
