//! Whether the same was seen.

ghost use Rattle.std.specs.Prelude.{◌≡◌, ◌↔◌, IsTrue};

use r4_base::Value;
use r4_content::{ByteRun, Seen, SeenPart};

// Whether the same was seen, in the same parts.
pub(crate) fn is_same_seen(seen: &Seen, other: &Seen) -> bool
    ensures { IsTrue result ↔ (seen.now.parts.items ≡ other.now.parts.items) }
{
    are_same_parts(seen.parts.as_slice(), other.parts.as_slice())
}

// Whether these are the same parts, one after another.
fn are_same_parts(parts: &[SeenPart], others: &[SeenPart]) -> bool
    ensures { IsTrue result ↔ (parts.now ≡ others.now) }
{
    if parts.len() != others.len() {
        return false;
    }
    for i in 0..parts.len() {
        if !is_same_part(&parts[i], &others[i]) {
            return false;
        }
    }
    true
}

fn is_same_part(part: &SeenPart, other: &SeenPart) -> bool
    ensures { IsTrue result ↔ (part.now ≡ other.now) }
{
    match (part, other) {
        (
            SeenPart::One { key, value },
            SeenPart::One {
                key: other_key,
                value: other_value,
            },
        ) => key == other_key && is_same_value(value, other_value),
        (SeenPart::Run(run), SeenPart::Run(other_run)) => is_same_run(run, other_run),
        _ => false,
    }
}

fn is_same_run(run: &ByteRun, other: &ByteRun) -> bool
    ensures { IsTrue result ↔ (run.now ≡ other.now) }
{
    run.from == other.from && run.bytes.as_slice() == other.bytes.as_slice()
}

fn is_same_value(value: &Value, other: &Value) -> bool
    ensures { IsTrue result ↔ (value.now ≡ other.now) }
{
    match (value, other) {
        (Value::Attr(attr), Value::Attr(other_attr)) => attr == other_attr,
        (Value::Entry(name, target), Value::Entry(other_name, other_target)) => {
            target == other_target && name.as_slice() == other_name.as_slice()
        }
        (Value::Byte(byte), Value::Byte(other_byte)) => byte == other_byte,
        _ => false,
    }
}
