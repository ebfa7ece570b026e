//! What was asked for, and what was seen there, as words: each what was asked for, `=`, and what
//! was seen.
//!
//! | word | what is asked for | what is seen |
//! |---|---|---|
//! | `f=file`, `root=dir` | the stat data of an object | just its attributes |
//! | `/f=f`, `d/x=x`, `/long=h` | an entry of the root or of another directory | its object |
//! | `d/*=x` | all entries of a directory | their names |
//! | `f[0,9)=5*a+4*0` | bytes | equal ones after another: how many, and the letter; 0 for 0 |
//!
//! Where nothing is seen at a key it says `none`, and `other` where it is something else.

use r4_base::{Attr, Key, Name, Target, Value};
use r4_cde::name_of_key;
use r4_content::{Interval, Seen, SeenPart};
use r4_gather::Asked;
use r4_tree_testing::{OBJECTS, ROOT_ENTRIES};
use std::alloc::{AllocError, Global};

/// All that was asked for with what was seen there, in the order in which it was asked for.
///
/// # Errors
/// Where there is no memory.
pub fn words(alloc: Global, asked: &[Asked], seen: &Seen) -> Result<String, AllocError> {
    let mut out = String::new(alloc);
    for one in asked {
        if !out.is_empty() {
            out.push_str(" ")?;
        }
        match one {
            Asked::Key(key) => put_key(&mut out, *key, seen)?,
            Asked::Within(within) => put_interval(alloc, &mut out, within, seen)?,
        }
    }
    Ok(out)
}

// The name of an object.
fn object_word(oid: u64) -> &'static str {
    match oid {
        42 => "root",
        65_536 => "d",
        65_537 => "e",
        65_538 => "f",
        65_539 => "g",
        65_540 => "h",
        65_541 => "i",
        65_542 => "m",
        65_543 => "x",
        65_544 => "z",
        _ => "unknown",
    }
}

// The name of a directory before that of an entry.
fn dir_word(oid: u64) -> &'static str {
    if oid == 42 { "" } else { object_word(oid) }
}

// A name of at most 23 bytes, or `long`.
fn put_name(out: &mut String, key: Key) -> Result<(), AllocError> {
    let Some(name) = name_of_key(&key) else {
        return out.push_str("long");
    };
    for byte in name.as_bytes() {
        out.push(char::from(*byte))?;
    }
    Ok(())
}

// A key with what was seen at it.
fn put_key(out: &mut String, key: Key, seen: &Seen) -> Result<(), AllocError> {
    if key.el[0] % 16 == 0 {
        out.push_str(dir_word(key.el[0] / 16))?;
        out.push_str("/")?;
        put_name(out, key)?;
    } else {
        out.push_str(object_word(key.el[2]))?;
    }
    out.push_str("=")?;
    out.push_str(value_word(key, seen))
}

// What was seen at a key.
fn value_word(key: Key, seen: &Seen) -> &'static str {
    for part in &seen.parts {
        if let SeenPart::One { key: here, value } = part
            && *here == key
        {
            return match value {
                Value::Attr(attr) => kind_word(key, attr),
                Value::Entry(name, target) => target_word(name, target),
                Value::Byte(_) => "other",
            };
        }
    }
    "none"
}

// What these attributes are, if they are those of the object with this key.
fn kind_word(key: Key, attr: &Attr) -> &'static str {
    for object in &OBJECTS {
        if object.stat_key() == key && object.attr() == *attr {
            return if object.mode == 0o40755 {
                "dir"
            } else {
                "file"
            };
        }
    }
    "other"
}

// What an entry names, if it is one of the root or the one for the file below `d`.
fn target_word(name: &Name, target: &Target) -> &'static str {
    for (other, _, oid) in &ROOT_ENTRIES {
        if name.as_slice() == *other && target.oid.0 == u64::from(*oid) {
            return object_word(target.oid.0);
        }
    }
    if name.as_slice() == b"x".as_slice() {
        object_word(target.oid.0)
    } else {
        "other"
    }
}

// An interval with what was seen in it.
fn put_interval(
    alloc: Global,
    out: &mut String,
    within: &Interval,
    seen: &Seen,
) -> Result<(), AllocError> {
    let Interval { from, to } = *within;
    if from.el[0] % 16 == 0 {
        out.push_str(dir_word(from.el[0] / 16))?;
        out.push_str("/*=")?;
        return put_names(out, within, seen);
    }
    let object = object_word(from.el[2]);
    let (first, end) = (from.el[3], to.el[3]);
    out.push_str(format!(in alloc; "{object}[{first},{end})=")?.as_str())?;
    put_bytes(alloc, out, &counts(alloc, within, seen)?)
}

// The names in an interval.
fn put_names(out: &mut String, within: &Interval, seen: &Seen) -> Result<(), AllocError> {
    let mut some = false;
    for part in &seen.parts {
        if let SeenPart::One { key, value: _ } = part
            && !key.is_below(within.from)
            && key.is_below(within.to)
        {
            if some {
                out.push_str(",")?;
            }
            some = true;
            put_name(out, *key)?;
        }
    }
    Ok(())
}

// The bytes in an interval, with how many equal ones follow one another.
fn counts(alloc: Global, within: &Interval, seen: &Seen) -> Result<Vec<(u8, u64)>, AllocError> {
    let mut counts = Vec::new(alloc);
    for part in &seen.parts {
        if let SeenPart::Run(run) = part
            && !run.from.is_below(within.from)
            && run.from.is_below(within.to)
        {
            count(&mut counts, run.bytes.as_slice())?;
        }
    }
    Ok(counts)
}

// Counts further bytes.
fn count(counts: &mut Vec<(u8, u64)>, bytes: &[u8]) -> Result<(), AllocError> {
    for byte in bytes {
        match counts.last_mut() {
            Some(last) if last.0 == *byte => last.1 = last.1.saturating_add(1),
            _ => counts.push((*byte, 1))?,
        }
    }
    Ok(())
}

// Bytes that were counted.
fn put_bytes(alloc: Global, out: &mut String, counts: &[(u8, u64)]) -> Result<(), AllocError> {
    let mut plus = "";
    for (byte, times) in counts {
        let letter = if *byte == 0 { '0' } else { char::from(*byte) };
        out.push_str(format!(in alloc; "{plus}{times}*{letter}")?.as_str())?;
        plus = "+";
    }
    Ok(())
}
