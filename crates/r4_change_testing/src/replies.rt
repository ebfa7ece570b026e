//! Replies in words.

use r4_base::{Attr, Bytes};
use r4_content::{Names, Reply};
use std::alloc::{AllocError, Global};

/// A reply as it is printed (docs/traces.md), but bytes as their number, as in `3 bytes`;
/// attributes as `1 links, 9 bytes`; names behind the word `names`; and without the details of a
/// refusal.
///
/// # Errors
/// Where there is no memory.
pub fn words(alloc: Global, reply: &Reply) -> Result<String, AllocError> {
    let word = match *reply {
        Reply::Data { ref bytes } => return data_words(alloc, bytes),
        Reply::Attr { attr } => return attr_words(alloc, attr),
        Reply::Names { ref names } => return names_words(alloc, names),
        Reply::Okay => "ok",
        Reply::Name => "name",
        Reply::Notdir => "notdir",
        Reply::Absent => "absent",
        Reply::Exists => "exists",
        Reply::Clash { other: _ } => "clash",
        Reply::Oids => "oids",
        Reply::Links => "links",
        Reply::Isdir => "isdir",
        Reply::Toobig => "toobig",
        Reply::Loop => "loop",
        Reply::Notempty => "notempty",
        _ => "the volume cannot do it",
    };
    String::from_str(alloc, word)
}

fn data_words(alloc: Global, bytes: &Bytes) -> Result<String, AllocError> {
    let count = bytes.as_slice().len();
    format!(in alloc; "{count} bytes")
}

fn attr_words(alloc: Global, attr: Attr) -> Result<String, AllocError> {
    let (links, size) = (attr.nlink, attr.size);
    format!(in alloc; "{links} links, {size} bytes")
}

fn names_words(alloc: Global, names: &Names) -> Result<String, AllocError> {
    let mut told = String::from_str(alloc, "names")?;
    for name in names.as_slice() {
        told.push_str(" ")?;
        told.push_str(String::from_utf8_lossy(alloc, name.as_slice())?.as_str())?;
    }
    Ok(told)
}
